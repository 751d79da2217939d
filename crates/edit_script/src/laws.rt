// What holds of all lines. Each law is the contract of a function that does nothing.
ghost use Rattle.std.specs.Prelude.{◌≡◌, ◌<◌, ◌^◌, ◌↔◌, ℕ, List, Some, decimal};
ghost use Rattle.json.specs.Print.{IsNumber};
ghost use Rattle.serde_json.specs.Data.{Data};
ghost use Rattle.edit_script.specs.declared.command.Command.{Command as ACommand};
ghost use Rattle.edit_script.specs.Values.{number_in};
ghost use Rattle.edit_script.specs.Table.{command_of};
ghost use Rattle.edit_script.specs.Lines.{IsCommand};

/// The command that is computed of a value is the one of its row in the table of lines.
pub fn commands_are_those_of_the_table()
    ensures { (value : Data) (command : ACommand)
        → (command_of value ≡ Some command) ↔ IsCommand value command }
{}

/// A number of a line is N exactly where it is written as its decimal digits: so `1.0`, `1e0` and `-0`
/// are none. (`01` and `+1` are no numbers of a JSON text.)
pub fn whole_numbers_are_digits()
    ensures { (text : List ℕ) (n : ℕ) → IsNumber text
        → (number_in text ≡ Some n) ↔ ((text ≡ decimal n) × (n < 2 ^ 32)) }
{}
