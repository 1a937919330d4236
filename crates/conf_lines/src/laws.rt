//! Laws of the statements of every text.
ghost use Rattle.conf_lines.specs.Laws.{LineFaultsStand, ItemsAreSound, OptionsAreWhole};

/// In the statements of every text each name is a NAME, each IPv4 address has four bytes, and each IPv6 address has sixteen
/// and a prefix length of at most 128.
pub fn items_are_sound()
    ensures { ItemsAreSound }
{}

/// In a statement without a fault each option has behind it what the table of options says: its number in its range, its
/// curve, its mask or its word. Its names are there, and each part of a filter or a conditioner in its order, with its number in its range.
pub fn options_are_whole()
    ensures { OptionsAreWhole }
{}

/// The fault that a line shows by itself stands at its word: lines that agree up to and with this word are read alike.
pub fn line_faults_stand()
    ensures { LineFaultsStand }
{}
