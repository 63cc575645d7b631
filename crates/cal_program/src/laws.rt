//! Laws that tie the forms of a script's lines down: each line that is read has one spelling, which is read again. And
//! what the numbers of a run's summary tell of it.

ghost use Rattle.std.specs.Prelude.{◌≡◌, ◌*◌, ℕ, List, length, Some};
ghost use Rattle.cal_transport.specs.Run.{IsRun};
ghost use Rattle.cal_program.specs.MadeScript.{made_settings, made_commands};
ghost use Rattle.cal_program.specs.Summary.{summary_of};
ghost use Rattle.cal_program.specs.Script.{settings_of, command_of};
ghost use Rattle.cal_program.specs.Spelling.{settings_line, command_line, HasSpelling, HasSettingsSpelling};

use cal_transport::{Command, Reply, Settings};

/// A line that is read as a command is the command's one spelling.
pub fn a_command_has_one_spelling()
    ensures law { (line : List ℕ) (command : Command) → command_of line ≡ Some command → line ≡ command_line command }
{}

/// A command's spelling is read as the command.
pub fn a_command_is_read_again()
    ensures law { (command : Command) → HasSpelling command → command_of (command_line command) ≡ Some command }
{}

/// A line that is read as settings is the settings' one spelling.
pub fn settings_have_one_spelling()
    ensures law { (line : List ℕ) (settings : Settings) → settings_of line ≡ Some settings →
        line ≡ settings_line settings }
{}

/// The spelling of settings is read as the settings.
pub fn settings_are_read_again()
    ensures law { (settings : Settings) → HasSettingsSpelling settings →
        settings_of (settings_line settings) ≡ Some settings }
{}

/// The first number of a run's summary is that of its commands.
pub fn each_command_is_answered()
    ensures law { (settings : Settings) (commands : List Command) (replies : List Reply) →
        IsRun settings commands replies → (summary_of replies).answered ≡ length commands }
{}

/// Of a made run it is eight times the number of rounds.
pub fn a_made_run_has_eight_answers_a_round()
    ensures law { (number rounds : ℕ) (replies : List Reply) →
        IsRun made_settings (made_commands number rounds) replies → (summary_of replies).answered ≡ 8 * rounds }
{}
