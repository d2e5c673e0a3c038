// Messages field by field.
ghost use Rattle.std.specs.Prelude.{◌≡◌, Bool};
ghost use Rattle.wire.specs.Fields.{Field};
ghost use Rattle.wire.specs.Shown.{shown_field};
ghost use Rattle.messages.specs.Gathering.{taken, gathered};

use wire::{WireFault, WireField, read_field};

// What is known of a message when some of its fields are read.
pub(crate) trait Gathered: Copy {
    // whether a field fits this kind of message
    ghost fitting: { Field → Bool };

    // what is known after one field more
    ghost with_one: { Self → Field → Self };

    fn with(self, field: WireField<'_>) -> Result<Self, WireFault>
        ensures { result ≡ taken fitting with_one self (shown_field field.entry) };
}

// What is known of a message when all of its fields are read; the first bad one refuses it.
#[tactic(auto, using(crate::proofs::Steps::gathering))]
pub(crate) fn read_fields<G: Gathered>(message: &[u8], start: G) -> Result<G, WireFault>
    ensures { result ≡ gathered G.fitting G.with_one start message.now }
{
    let mut known = start;
    let mut at = 0;
    // Stays: each field says where the next one begins; an iterator of fields would be this loop, and a stop after a fault.
    while at < message.len() {
        let field = read_field(message, at)?;
        known = known.with(field)?;
        at = field.next;
    }
    Ok(known)
}
