// Worked lines of each statement, and lines that spell none.
ghost use Rattle.std.specs.Prelude.{codes};
ghost use Rattle.conf_lines.specs.declared.statement.Form.TheVariants as form;
ghost use Rattle.conf_grammar.specs.Bounds.{AllSpell, NoneSpells, interface_ends, interface_past, hfsc_ends, hfsc_past, cbq_ends, cbq_past, filter_ends, filter_past, filter6_ends, filter6_past, conditioner_ends, conditioner_past};
ghost use Rattle.conf_grammar.specs.Rows.{Says, SaysNothing, conditioner_says, filter6_says, filter_says, hfsc_says, interface_says, root_says};
ghost use Rattle.conf_grammar.specs.Spells.{Spells};

/// A line of each statement spells what stands beside it.
pub fn worked_lines()
    ensures interface { Says (Spells form.Interface) (codes "interface if0 bandwidth 9.5M tbrsize auto hfsc") interface_says }
    ensures hfsc { Says (Spells form.ClassHfsc) (codes "class hfsc if0 data root rt 0 10 2M [ls 3M 0 3M] ul 6M 20 4M ecn admission none default") hfsc_says }
    ensures root { Says (Spells form.ClassCbq) (codes "class cbq if1 root NULL qlimit 0x14") root_says }
    ensures filter { Says (Spells form.Filter) (codes "filter if0 voice name calls ruleno 10 10.0.0.0 netmask 255.0.0.0 0 0 5060 17 tos 0xB8") filter_says }
    ensures filter6 { Says (Spells form.Filter6) (codes "filter6 if0 voice ::1/64 5004 0 0 58") filter6_says }
    ensures conditioner { Says (Spells form.Conditioner) (codes "conditioner if0 data trtcm 16M 2000 8M 1000 4") conditioner_says }
{}

/// A rate below its range, a class below the root that has no share or no rate, a mask behind the address `0`, a prefix length of 129, and
/// a committed rate above the peak rate: these lines spell nothing.
pub fn worked_refusals()
    ensures rate { SaysNothing (Spells form.Interface) (codes "interface if0 bandwidth 999 hfsc") }
    ensures share { SaysNothing (Spells form.ClassHfsc) (codes "class hfsc if0 a root rt 0 10 2M") }
    ensures needed { SaysNothing (Spells form.ClassCbq) (codes "class cbq if0 a root borrow") }
    ensures mask { SaysNothing (Spells form.Filter) (codes "filter if0 a 0 netmask 255.0.0.0 0 0 0 17") }
    ensures prefix { SaysNothing (Spells form.Filter6) (codes "filter6 if0 a ::1/129 0 0 0 17") }
    ensures committed { SaysNothing (Spells form.Conditioner) (codes "conditioner if0 a trtcm 8M 1500 9M 1500 1") }
{}

/// Lines at both ends of each range of a number and of a name's length spell their statement; with one number past an end, or with a
/// curve whose second slope is just above the first, a line spells nothing.
pub fn worked_bounds()
    ensures interface_ends { AllSpell form.Interface interface_ends }
    ensures interface_past { NoneSpells form.Interface interface_past }
    ensures hfsc_ends { AllSpell form.ClassHfsc hfsc_ends }
    ensures hfsc_past { NoneSpells form.ClassHfsc hfsc_past }
    ensures cbq_ends { AllSpell form.ClassCbq cbq_ends }
    ensures cbq_past { NoneSpells form.ClassCbq cbq_past }
    ensures filter_ends { AllSpell form.Filter filter_ends }
    ensures filter_past { NoneSpells form.Filter filter_past }
    ensures filter6_ends { AllSpell form.Filter6 filter6_ends }
    ensures filter6_past { NoneSpells form.Filter6 filter6_past }
    ensures conditioner_ends { AllSpell form.Conditioner conditioner_ends }
    ensures conditioner_past { NoneSpells form.Conditioner conditioner_past }
{}
