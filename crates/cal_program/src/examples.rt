//! Examples of what the definitions say of closed texts. Each is found by computing.
#![tactic(auto)]

ghost use Rattle.std.specs.Prelude.{◌≡◌, ◌∷◌, [], ◌++◌, map, codes};
ghost use Rattle.std.specs.List.{join_with_byte};
ghost use Rattle.cal_program.specs.Words.{number_of, bytes_of};
ghost use Rattle.cal_program.specs.Spelling.{settings_line, command_line};
ghost use Rattle.cal_program.specs.ReplyText.{line, reply_text, reply_lines};
ghost use Rattle.cal_program.specs.Script.{script_of, command_of, settings_of};
ghost use Rattle.cal_transport.specs.Settings.{create_cause};
ghost use Rattle.cal_program.specs.Request.{request_of};
ghost use Rattle.cal_program.specs.MadeScript.{made_settings, next_state, draw_of, made_commands};
ghost use Rattle.cal_program.specs.Summary.{summary_line};
ghost use Rattle.cal_program.specs.Examples.{one_chunk, small_settings, one_chunk_commands, bad_third_line, one_slot, round_of_one, some_replies};

use crate::request::Request;
use cal_transport::{Command, Refusal, Reply};

/// A script's settings and commands, with and without the last line feed.
pub fn a_script_is_read()
    ensures read { script_of one_chunk ≡ Ok (record { settings = small_settings; commands = one_chunk_commands }) }
    ensures last_end { script_of (one_chunk ++ 10 ∷ []) ≡ script_of one_chunk }
{}

/// The first bad line is counted from one. Without a line, it is the first.
pub fn a_bad_line_is_counted()
    ensures third { script_of bad_third_line ≡ Err 3 }
    ensures empty { script_of [] ≡ Err 1 }
    ensures settings_first { script_of (codes "count") ≡ Err 1 }
    ensures empty_line { script_of (codes "transport 8 8 1 static 1 1 off 1 1 1" ++ 10 ∷ 10 ∷ []) ≡ Err 2 }
{}

/// Words are one space apart, with none at the ends.
pub fn spaces_are_counted()
    ensures one { command_of (codes "loan 8 8") ≡ Some (Command.Loan 8 8) }
    ensures two { command_of (codes "loan  8 8") ≡ None }
    ensures first { command_of (codes " loan 8 8") ≡ None }
    ensures last { command_of (codes "loan 8 8 ") ≡ None }
{}

/// Numbers have no sign, no leading zero, and 64 bits.
pub fn numbers_are_plain()
    ensures zero { number_of (codes "0") ≡ Some 0 }
    ensures greatest { number_of (codes "18446744073709551615") ≡ Some 18446744073709551615 }
    ensures too_great { number_of (codes "18446744073709551616") ≡ None }
    ensures leading_zero { number_of (codes "08") ≡ None }
    ensures signed { number_of (codes "+8") ≡ None }
    ensures empty { number_of [] ≡ None }
{}

/// Two letters are a byte, the high half first, and a dash is no byte.
pub fn bytes_are_pairs_of_letters()
    ensures two { bytes_of (codes "7b00") ≡ Some (123 ∷ 0 ∷ []) }
    ensures none { bytes_of (codes "-") ≡ Some [] }
    ensures odd { bytes_of (codes "7b0") ≡ None }
    ensures capital { bytes_of (codes "7B") ≡ None }
    ensures empty { bytes_of [] ≡ None }
{}

/// Lines of replies that tell where a chunk lies.
pub fn slots_have_text()
    ensures loaned { reply_text (Reply.Loaned one_slot) ≡ codes "loaned 14 2:16" }
    ensures sent { reply_text (Reply.Sent (Some one_slot)) ≡ codes "sent back 14 2:16" }
    ensures transit { reply_text (Reply.Transit 1 one_slot) ≡ codes "transit 1 14 2:16" }
{}

/// The lines of the first example, spelled from what they say.
pub fn a_script_is_spelled()
    ensures spelled { one_chunk ≡
        join_with_byte 10 (settings_line small_settings ∷ map command_line one_chunk_commands) }
{}

/// Lines of replies.
pub fn replies_have_lines()
    ensures received { reply_text (Reply.Received None) ≡ codes "received none" }
    ensures shown { reply_text (Reply.Shown (123 ∷ 0 ∷ [])) ≡ codes "bytes 7b00" }
    ensures shown_none { reply_text (Reply.Shown []) ≡ codes "bytes -" }
    ensures refused { reply_text (Reply.Refused Refusal.NotLoaned) ≡ codes "refused NotLoaned" }
    ensures lines { reply_lines (Reply.Written ∷ Reply.Discarded ∷ []) ≡
        line (codes "written") ++ line (codes "discarded") }
{}

/// What words ask for. Numbers are as in a script, and at most 10,000 rounds are asked for.
pub fn words_ask()
    ensures run { request_of (codes "run" ∷ []) ≡ Some Request.Run }
    ensures made { request_of (codes "make" ∷ codes "7" ∷ codes "10000" ∷ []) ≡ Some (Request.Make 7 10000) }
    ensures too_many { request_of (codes "make" ∷ codes "7" ∷ codes "10001" ∷ []) ≡ None }
    ensures leading_zero { request_of (codes "make" ∷ codes "07" ∷ codes "1" ∷ []) ≡ None }
    ensures one_number { request_of (codes "make" ∷ codes "7" ∷ []) ≡ None }
    ensures none { request_of [] ≡ None }
{}

/// The one round of the number 1, and the settings over which it runs.
pub fn a_round_is_made()
    ensures state { next_state 1 ≡ 7806831264735756412 }
    ensures draw { draw_of (next_state 1) ≡ record { size = 23; byte = 223; channel = 0 } }
    ensures commands { made_commands 1 1 ≡ round_of_one }
    ensures fine { create_cause made_settings ≡ None }
{}

/// Two answers, one of them a refusal, and a chunk in transit.
pub fn replies_are_summed_up()
    ensures told { summary_line some_replies ≡ line (codes "replies 2 refused 1 transit 1 sum 260") }
{}
