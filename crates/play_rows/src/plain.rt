//! Literal sendings of the plain disciplines.
ghost use Rattle.std.specs.Prelude.{◌≡◌, ◌≤◌};
ghost use Rattle.discipline.specs.Laws.{HasRate};

use leaf_queue::{Tail, Words};
use link_clock::LinkClock;
use plain_disciplines::{Discipline, Paced, Pick, Rule, Sending, Strict, Verdict};
use play_base::Ticket;
use std::alloc::Global;
use std::test::Fail;

// What is due at a moment at which the link is free, and when it is free then: what is due is sent.
fn turn<D: Discipline>(discipline: &mut D, clock: &mut LinkClock, now: u64) -> Option<(Pick, u64)>
    requires rate { HasRate (D.view discipline.old).link_rate clock.old.rate }
    requires later { (D.view discipline.old).moment ≤ now }
    requires after { (D.view discipline.old).ended ≤ clock.old.link.free }
    ensures rate { clock.new.rate ≡ clock.old.rate }
{
    if clock.free() > now || now >= 1 << 63 {
        return None;
    }
    let pick = discipline.next(now, clock);
    if let Pick::Send {
        ticket,
        class,
        len,
        rule,
    } = pick
    {
        let sending = Sending {
            ticket,
            class,
            len,
            rule,
            start: now,
            end: clock.end_of(now, len),
        };
        discipline.sent(sending, clock);
        clock.send(now, len);
    }
    Some((pick, clock.free()))
}

// A sending of the packet with this ticket, of this class.
fn sends(ticket: u32, class: u32, len: u32, rule: Rule) -> Pick {
    Pick::Send {
        ticket: Ticket(ticket),
        class,
        len,
        rule,
    }
}

// One class whose packets start a millisecond apart, and two packets of 100 bytes that arrived at 0.
fn paced_two(alloc: Global) -> Result<Paced<Tail>, Fail> {
    let mut words = Words::new(0);
    let mut paced = Paced::build(alloc, 7, 1_000_000, Tail { limit: 50 })?;
    let room = paced.room();
    let first = paced.offer(Ticket(0), 7, 100, 0, 0, &mut words);
    let second = paced.offer(Ticket(1), 7, 100, 0, 0, &mut words);
    if room == 50 && first == Verdict::Keep && second == Verdict::Keep {
        Ok(paced)
    } else {
        Err(Fail::new("two packets were not kept"))
    }
}

// Whether it sends them so: on 8 megabits a second each takes the link 100,000 ns.
fn is_paced(paced: &mut Paced<Tail>) -> bool {
    let mut clock = LinkClock::new(8_000_000);
    let first = turn(paced, &mut clock, 0);
    let waits = turn(paced, &mut clock, 100_000);
    let second = turn(paced, &mut clock, 1_000_000);
    let empty = turn(paced, &mut clock, 1_100_000);
    first == Some((sends(0, 7, 100, Rule::Own), 100_000))
        && waits == Some((Pick::Wait { till: 1_000_000 }, 100_000))
        && second == Some((sends(1, 7, 100, Rule::Own), 1_100_000))
        && empty == Some((Pick::Empty, 1_100_000))
}

#[test]
fn paced_waits_for_its_gap(rt: HostRuntime) -> Result<(), Fail> {
    let mut paced = paced_two(rt.alloc())?;
    let holds = is_paced(&mut paced);
    assert!(rt; holds);
    Ok(())
}

// Two classes in a row. A packet of 1,000 bytes of the second and then one of the first arrived at 0.
fn strict_two(alloc: Global) -> Result<Strict<Tail>, Fail> {
    let mut words = Words::new(0);
    let queues = vec![in alloc; Tail { limit: 50 }, Tail { limit: 50 }]?;
    let mut strict = Strict::build(alloc, 1, Rule::Share, queues)?;
    let second = strict.offer(Ticket(0), 2, 1000, 0, 0, &mut words);
    let first = strict.offer(Ticket(1), 1, 1000, 0, 0, &mut words);
    if second == Verdict::Keep && first == Verdict::Keep {
        Ok(strict)
    } else {
        Err(Fail::new("two packets were not kept"))
    }
}

// Whether it sends them so: on 8 megabits a second each takes the link a millisecond.
fn is_strict(strict: &mut Strict<Tail>) -> bool {
    let mut clock = LinkClock::new(8_000_000);
    let first = turn(strict, &mut clock, 0);
    let second = turn(strict, &mut clock, 1_000_000);
    first == Some((sends(1, 1, 1000, Rule::Share), 1_000_000))
        && second == Some((sends(0, 2, 1000, Rule::Share), 2_000_000))
}

#[test]
fn strict_sends_the_first_class(rt: HostRuntime) -> Result<(), Fail> {
    let mut strict = strict_two(rt.alloc())?;
    let holds = is_strict(&mut strict);
    assert!(rt; holds);
    Ok(())
}
