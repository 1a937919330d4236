//! Laws of configurations and of their canonical text.
ghost use Rattle.conf_laws.specs.Laws.{ConfigurationsFit, FaultsStandAtWords, FaultsStandInTexts, InterfacesHaveQueues, StatementsAreRead, TextHasItsStatements, TextsReadBack};

use conf_lines::items_are_sound;

/// The interfaces of every text keep to their ranges, their limits and their trees.
pub fn configurations_fit()
    ensures { ConfigurationsFit }
{
    items_are_sound();
}

/// In each interface of every text the default class, the class of each filter, each class with `control` and each class with a
/// conditioner hold packets: in HFSC they are leaves.
pub fn interfaces_have_queues()
    ensures { InterfacesHaveQueues }
{
    configurations_fit();
}

/// The canonical text has one statement on each line, which says what the configuration says.
pub fn text_has_its_statements()
    ensures { TextHasItsStatements }
{}

/// The statements of the canonical text are read as the configuration.
pub fn statements_are_read()
    ensures { StatementsAreRead }
{}

/// The round trip: the canonical text of a configuration is read as that configuration.
pub fn texts_read_back()
    ensures { TextsReadBack }
{
    configurations_fit();
    text_has_its_statements();
    statements_are_read();
}

/// The first fault of a text depends only on what stands up to its word: two lines behind the same statements that agree up
/// to and with this word have the same fault, whatever follows.
pub fn faults_stand_at_words()
    ensures { FaultsStandAtWords }
{}

/// The same of bytes: two texts that agree up to and with the word of a fault, and the byte that ends it, have the same first
/// fault, or in the other text its line is too long. So no continuation of a text mends a fault.
pub fn faults_stand_in_texts()
    ensures { FaultsStandInTexts }
{}
