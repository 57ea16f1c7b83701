//! Laws of the definitions that contracts cite. The functions do nothing.

ghost use Rattle.std.specs.Prelude.{◌≡◌, ℕ, List};
ghost use Rattle.clap.specs.declared.parser.matches.Found.{Found};
ghost use Rattle.job_statements.specs.declared.stated.StatedNumber.{StatedNumber};
ghost use Rattle.command_line.specs.StatedNumbers.{StatesNumbers};

/// The texts of an option state one number of each station, or none, and one list of those of
/// single stations.
pub fn one_statement()
    ensures { (found : Found) (id : List ℕ) (largest : ℕ) (a b : StatedNumber)
        → StatesNumbers found id largest a → StatesNumbers found id largest b
        → (a.of_each ≡ b.of_each) × (a.of_one.items ≡ b.of_one.items) }
{}
