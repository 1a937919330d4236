// Laws of rows and of the files of plays.
ghost use Rattle.std.specs.Prelude.{◌≡◌, ◌≤◌, ◌<◌, ℕ, List, [], Option, length};
ghost use Rattle.altq_model.specs.Arrivals.{Captured, bare_arrivals};
ghost use Rattle.altq_model.specs.Departures.{Dressing, KeepsLength, departures};
ghost use Rattle.altq_model.specs.History.{Arrival, Decision, LabelledEvent, unlabelled, journal};
ghost use Rattle.altq_model.specs.Laws.{IsInTime};
ghost use Rattle.altq_model.specs.Play.{Policy};
ghost use Rattle.fate_busy.specs.Busy.{StartsAtOnce};
ghost use Rattle.fate_check.specs.Given.{rows_for};
ghost use Rattle.fate_check.specs.declared.reading.Row.{Row};
ghost use Rattle.fate_departures.specs.Departures.{AreDepartures, DepartOtherwise};
ghost use Rattle.fate_departures.specs.Frames.{Packets};
ghost use Rattle.fate_judge.specs.Judged.{Case, PassesAll};
ghost use Rattle.fate_judge.specs.Walk.{EachRow, FirstFails};
ghost use Rattle.fate_judge.specs.declared.given.Allowed.{Allowed};
ghost use Rattle.fate_laws.specs.Plays.{AreSome, CanOccur, HasFrames, MarksAreAllowed};
ghost use Rattle.fate_timely.specs.Timely.{EndsInTime, StartsInTurn, curve_at, longest_sent};
ghost use Rattle.hfsc_model.specs.RealTime.{curve_of};
ghost use Rattle.hfsc_model.specs.Timely.{IsTimely};
ghost use Rattle.hfsc_policy.specs.Events.{hfsc_history};
ghost use Rattle.journal_laws.specs.Journal.{IsBusy, IsJournal};
ghost use Rattle.play_base.specs.Units.{ceil_div, units};
ghost use Rattle.play_laws.specs.Events.{HasLaws};
ghost use Rattle.service_curve.specs.declared.Curve.{Curve};

/// Rows that pass the tests of rows are at most as many as the packets; and where no packet is empty they are in turn: none starts
/// before it arrives, nor before an earlier row. The function does nothing: it states its laws.
pub fn rows_that_pass()
    ensures in_turn { (c : Case) → AreSome c.arrived → PassesAll c → EachRow StartsInTurn [] c.rows }
    ensures few { (c : Case) → PassesAll c → length c.rows ≤ length c.arrived }
{}

/// The rows of a journal that keeps the laws pass the tests of rows, where each fate can occur in its class; and those of a busy one
/// start as soon as they can. The departures of a history whose sendings end in time are those of its rows, where it marked only
/// packets that may be marked. Where the history of HFSC is timely, as its law says where the curves fit the link, so are the rows: each
/// packet ends at most the time of the longest that is sent, rounded up, after each moment that is due for it. The function does
/// nothing: it states its laws.
pub fn files_of_plays_pass()
    ensures rows { (rate : ℕ) (classes : List Allowed) (arrived : List Captured) (js : List Decision) → IsJournal rate (bare_arrivals arrived) js
        → CanOccur classes (bare_arrivals arrived) js
        → PassesAll (record { rate = rate; classes = classes; arrived = bare_arrivals arrived; rows = rows_for arrived js }) }
    ensures busy { (arrived : List Captured) (js : List Decision) → IsBusy (bare_arrivals arrived) js
        → EachRow (StartsAtOnce (bare_arrivals arrived) (rows_for arrived js)) [] (rows_for arrived js) }
    ensures departures { (dress : Dressing) (p : Packets) (arrived : List Captured) (g : List LabelledEvent) → HasFrames p arrived → IsInTime g
        → MarksAreAllowed p arrived g → AreDepartures dress p (rows_for arrived (journal g)) (departures dress arrived g) }
    ensures timely { (p : Policy) (rate seed : ℕ) (curves tested : List (Option Curve)) (arrived : List Captured) (g : List LabelledEvent) → 0 < rate
        → HasLaws p rate seed (bare_arrivals arrived) g → ((class : ℕ) → curve_at tested class ≡ curve_of curves class)
        → IsTimely rate curves (hfsc_history (unlabelled g))
        → EachRow (EndsInTime tested (ceil_div (units (longest_sent (rows_for arrived (journal g)))) rate)) [] (rows_for arrived (journal g)) }
{}

/// Departures are those of rows, or there is one first row whose record does not stand in its place, and not both, where packets keep
/// their lengths as they leave. And where a test asks the same of each row after those before it, as the tests of a busy link and of due
/// moments do, rows pass it, or there is one first row that fails it, and not both. The function does nothing: it states its laws.
pub fn files_fail_one_way()
    ensures one_departure { (dress : Dressing) (p : Packets) (rows : List Row) (departures : List ℕ) (row other : ℕ) → KeepsLength dress
        → DepartOtherwise dress p rows departures row → DepartOtherwise dress p rows departures other → row ≡ other }
    ensures departures_or_not { (dress : Dressing) (p : Packets) (rows : List Row) (departures : List ℕ) (row : ℕ) → KeepsLength dress
        → AreDepartures dress p rows departures → ¬ DepartOtherwise dress p rows departures row }
    ensures one_idle { (arrived : List Arrival) (rows : List Row) (row other : ℕ) → FirstFails (StartsAtOnce arrived rows) rows row
        → FirstFails (StartsAtOnce arrived rows) rows other → row ≡ other }
    ensures busy_or_not { (arrived : List Arrival) (rows : List Row) (row : ℕ) → EachRow (StartsAtOnce arrived rows) [] rows
        → ¬ FirstFails (StartsAtOnce arrived rows) rows row }
    ensures one_overdue { (curves : List (Option Curve)) (most : ℕ) (rows : List Row) (row other : ℕ) → FirstFails (EndsInTime curves most) rows row
        → FirstFails (EndsInTime curves most) rows other → row ≡ other }
    ensures timely_or_not { (curves : List (Option Curve)) (most : ℕ) (rows : List Row) (row : ℕ) → EachRow (EndsInTime curves most) [] rows
        → ¬ FirstFails (EndsInTime curves most) rows row }
{}
