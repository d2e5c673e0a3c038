// The square of the generator matrix's rows that belong to the chosen cells.
ghost use Rattle.std.specs.Prelude.{◌≡◌, ℕ, ◌+◌, ◌*◌, ◌<◌, ◌≤◌, length, slice_index};
ghost use Rattle.matrix.specs.Grids.{grid};

use field::Field;

// Row k of the square is the row of the k-th chosen cell.
pub(crate) fn select_rows<F: Field>(generator: &[F], chosen: &[usize], square: &mut [F])
    requires side { length chosen.now ≤ 16 }
    requires rows { let d = length chosen.now in (k : ℕ) → k < d → slice_index chosen.now k * d + d ≤ length generator.now }
    requires room { length chosen.now * length chosen.now ≤ length square.old }
    ensures { let d = length chosen.now in (k c : ℕ) → k < d → c < d → grid F.Field.ops.zero d square.new k c ≡ grid F.Field.ops.zero d generator.now (slice_index chosen.now k) c }
{
    let d = chosen.len();
    // Stays: (c) tried `chunks_mut`: after it a proof knows the length of the square and none of its entries.
    for (k, &r) in chosen.iter().enumerate() {
        square[k * d..k * d + d].copy_from_slice(&generator[r * d..r * d + d]);
    }
}
