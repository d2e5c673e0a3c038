// What a code is: a field, and a matrix over it for each permitted number of data and parity units.
ghost use Rattle.std.specs.Prelude.{◌≡◌, ℕ, ◌+◌, ◌*◌, ◌<◌, ◌≤◌, Decides};
ghost use Rattle.algebra.specs.Codes.{Invertible};
ghost use Rattle.codes.specs.Generators.{Permitted, Systematic};
ghost use Rattle.codes.specs.Laid.{Laid};

use super::fault::GeneratorFault;
use field::Field;

// Whether a row may have so many data and parity units.
// Stays: `policy` has these limits among those of a scheme, and neither crate stands on the other.
// Stays: a type for the two numbers would be made at each call of a code and taken apart in it, and say no more.
pub(crate) fn is_permitted(data_units: usize, parity_units: usize) -> bool
    ensures { Decides result (Permitted data_units parity_units) }
{
    data_units >= 1 && parity_units >= 1 && data_units.saturating_add(parity_units) <= 16
}

pub trait Code {
    type F: Field;

    // whether there is a matrix for so many data and parity units
    ghost permits: { ℕ → ℕ → Type 0 };

    // its entry for so many data units, by row and column
    ghost generator: { ℕ → ℕ → ℕ → Self.F };

    fn permits(data_units: usize, parity_units: usize) -> bool
        ensures { Decides result (permits data_units parity_units) };

    fn entry(data_units: usize, row: usize, col: usize) -> Self::F
        ensures { result ≡ generator data_units row col };

    // Writes the generator matrix, row by row. Any data_units of its rows have an inverse.
    fn matrix(
        data_units: usize,
        parity_units: usize,
        out: &mut [Self::F],
    ) -> Result<(), GeneratorFault>
        ensures { Laid Self.F.Field.ops (permits data_units parity_units) data_units (data_units + parity_units) (generator data_units) out.old out.new result }
    {
        if !Self::permits(data_units, parity_units) {
            return Err(GeneratorFault::Limit);
        }
        let entries = (data_units + parity_units) * data_units;
        if out.len() < entries {
            return Err(GeneratorFault::Sides);
        }
        for (i, x) in out[..entries].iter_mut().enumerate() {
            *x = Self::entry(data_units, i / data_units, i % data_units);
        }
        Ok(())
    }

    ghost limits: { (d p : ℕ) → permits d p → Permitted d p };

    ghost systematic: { (d : ℕ) → Systematic Self.F.Field.ops d (generator d) };

    ghost rows: { (d p : ℕ) → permits d p → Invertible Self.F.Field.ops d (d + p) (generator d) };
}
