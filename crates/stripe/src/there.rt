// How large a row is, and which of its cells are there.
ghost use Rattle.std.specs.Prelude.{◌≡◌, ◌*◌, ◌≤◌, [], not, length, count_by};
ghost use Rattle.stripe.specs.Coded.{units};
ghost use Rattle.stripe.specs.There.{flag, there_below};

use arrayvec::ArrayVec;
use policy::EcSchema;

// How many bytes the cells of a row have.
pub(crate) fn row_bytes(schema: EcSchema) -> usize
    ensures { result ≡ units schema * schema.cell_size }
{
    schema.units() * schema.cell_size
}

// How many cells are missing.
pub(crate) fn count_missing(there: &[bool]) -> usize
    ensures { result ≡ count_by not there.now }
{
    there.iter().filter(|&&here| !here).count()
}

// Lists the cells that are there, the lowest first. The list is lent, since one handed out is copied twice.
pub(crate) fn lowest(there: &[bool], chosen: &mut ArrayVec<usize, 16>)
    requires room { length there.now ≤ 16 }
    requires empty { chosen.old.items ≡ [] }
    ensures { chosen.new.items ≡ there_below (flag there.now) (length there.now) }
{
    for (r, &here) in there.iter().enumerate() {
        if here {
            chosen.push(r);
        }
    }
}
