//! What follows from the definitions.

ghost use Rattle.std.specs.Prelude.{◌≡◌, ◌≢◌, ◌≤◌, ◌↔◌, ◌++◌, ◌∷◌, [], List, None, Ok, Option, Some, codes, flat_map, length, IsTrue};
ghost use Rattle.std.specs.List.{AllByRecursion, concat};
ghost use Rattle.dns_wire.specs.Octets.{Labels, Octets};
ghost use Rattle.dns_name.specs.Text.{parsed_name};
ghost use Rattle.dns_message.specs.Messages.{RecordValue};
ghost use Rattle.dns_message.specs.Order.{canonical_list};
ghost use Rattle.dns_message.specs.Same.{Same};
ghost use Rattle.dns_command.specs.Texts.{HasRecords, HasRecordsBy};
ghost use Rattle.dns_record.specs.FurtherFormats.{data_by};
ghost use Rattle.dns_message.specs.declared.message.TheConstants.{MAX_MESSAGE_SIZE};
ghost use Rattle.dns_normal.specs.Normal.{normal_form};
ghost use Rattle.dns_lines.specs.Answers.{Answers, IsAnswer, formats_for};
ghost use Rattle.dns_lines.specs.Lines.{HasLines, IsLine, ended};
ghost use Rattle.dns_lines.specs.Words.{command_of};

use crate::command::LineCommand;
use crate::line::LINE_LIMIT;
use crate::status::LinesStatus;

/// Each text has lines, and no others; and none of them has an LF.
pub fn lines_of_texts()
    ensures each { (t : Octets) → (lines : List Octets) × HasLines t lines }
    ensures no_others { (t : Octets) (lines others : List Octets) → HasLines t lines → HasLines t others → lines ≡ others }
{}

/// What is written for a text is determined by the text, and the answer to a line by the line.
pub fn one_answer()
    ensures line { (command : LineCommand) (line answer other : Octets) → IsAnswer command line answer → IsAnswer command line other → answer ≡ other }
    ensures text { (command : LineCommand) (t written other : Octets) → Answers command t written → Answers command t other → written ≡ other }
{}

/// If a text is divided after an LF, what is written for it is what is written for the one part, and then what is written for the other.
pub fn answers_of_parts()
    ensures { (command : LineCommand) (t u written other : Octets) → Answers command (ended t) written → Answers command u other
        → Answers command (ended t ++ u) (written ++ other) }
{}

/// Each answer is some whole lines, and each of `normal` and `digest` is one line.
pub fn answers_are_lines()
    ensures one { (command : LineCommand) (line answer : Octets) → command ≢ LineCommand.Signed → ((apex : Option Labels) → command ≢ LineCommand.Records apex) → IsAnswer command line answer
        → (shown : Octets) × IsLine shown × (answer ≡ ended shown) }
    ensures some { (command : LineCommand) (line answer : Octets) → IsAnswer command line answer → (shown : List Octets) × AllByRecursion IsLine shown × (answer ≡ flat_map ended shown) }
{}

/// Lines with messages that have the same records, by the formats of the command, have equal answers, but for those of `records`, which are in
/// the order of the message.
pub fn equal_records()
    ensures { (command : LineCommand) (line other answer reply : Octets) (rs ss : List RecordValue) → ((apex : Option Labels) → command ≢ LineCommand.Records apex) → HasRecordsBy (data_by (formats_for command)) line rs → HasRecordsBy (data_by (formats_for command)) other ss → Same rs ss
        → length line ≤ LINE_LIMIT → length other ≤ LINE_LIMIT → IsAnswer command line answer → IsAnswer command other reply → answer ≡ reply }
{}

/// Lines with messages that have equal normal forms, of no more than 65,535 octets, have the same records.
pub fn different_records()
    ensures { (line other answer : Octets) (rs ss : List RecordValue) → HasRecords line rs → HasRecords other ss → length line ≤ LINE_LIMIT → length other ≤ LINE_LIMIT
        → length (normal_form rs) ≤ MAX_MESSAGE_SIZE → IsAnswer LineCommand.Normal line answer → IsAnswer LineCommand.Normal other answer → Same rs ss }
{}

/// What `digest` takes the digest of tells the records, though nothing stands between two of them: the canonical octets of the records of
/// two lines' messages, one after another, are the same exactly if the messages have the same records (RFC 4034 section 6).
pub fn equal_streams()
    ensures { (line other : Octets) (rs ss : List RecordValue) → HasRecords line rs → HasRecords other ss → (concat (canonical_list rs) ≡ concat (canonical_list ss)) ↔ Same rs ss }
{}

/// The words of the commands are `normal`, `digest`, `signed` or `records`, alone, or `records` and the text of a name.
pub fn words_of_lines()
    ensures normal { (words : List Octets) → (command_of words ≡ Some LineCommand.Normal) ↔ (words ≡ codes "normal" ∷ []) }
    ensures digest { (words : List Octets) → (command_of words ≡ Some LineCommand.Digest) ↔ (words ≡ codes "digest" ∷ []) }
    ensures signed { (words : List Octets) → (command_of words ≡ Some LineCommand.Signed) ↔ (words ≡ codes "signed" ∷ []) }
    ensures records { (words : List Octets) → (command_of words ≡ Some (LineCommand.Records None)) ↔ (words ≡ codes "records" ∷ []) }
    ensures zone { (words : List Octets) (apex : Labels) → (command_of words ≡ Some (LineCommand.Records (Some apex)))
        ↔ ((text : Octets) × (words ≡ codes "records" ∷ text ∷ []) × (parsed_name text ≡ Ok apex)) }
{}

/// Statuses are equal exactly if they are the same.
pub fn equal_statuses()
    ensures { (a b : _) → IsTrue (⟦<LinesStatus as PartialEq>⟧.eq a b) ↔ (a ≡ b) }
{}

/// A line has at most 131,072 octets, unless it is too long.
pub fn limits()
    ensures { LINE_LIMIT ≡ 131072 }
{}
