// Fields: a key with number and wire type, and the value that the wire type asks for.
ghost use Rattle.std.specs.Prelude.{◌≡◌, ◌<◌, ◌≤◌, length, IfOk};
ghost use Rattle.wire.specs.Fields.{part_value, value_at, field_at};
ghost use Rattle.wire.specs.Shown.{shown_reached, shown};

use crate::faults::WireFault;
use crate::rest::Rest;
use crate::varints::read_varint;

// What a field holds; a part is lent from the message, and begins at a place of it.
// Stays: each number is the field's value, and stands for no kind.
#[derive(Clone, Copy, PartialEq, Eq, Debug)]
pub enum WireValue<'a> {
    Varint(u64),
    Fixed64(u64),
    Part { bytes: &'a [u8], place: usize },
    Fixed32(u32),
}

// A field, and the place after its last byte.
#[derive(Clone, Copy, PartialEq, Eq, Debug)]
pub struct WireField<'a> {
    pub number: u32,
    pub value: WireValue<'a>,
    pub next: usize,
}

impl<'a> Rest<'a> {
    // A length, which is a varint, and as many bytes, with the place after them.
    fn first_part(&self) -> Result<(WireValue<'a>, usize), WireFault>
        ensures { shown_reached result ≡ part_value self.now.message.now self.now.at }
    {
        let len = self.first_varint()?;
        let place = len.next;
        let bytes = Rest { at: place, ..*self }.first_bytes(len.value)?;
        Ok((WireValue::Part { bytes, place }, place + bytes.len()))
    }

    // What a wire type asks for, with the place after it.
    fn first_value(&self, wire_type: u32) -> Result<(WireValue<'a>, usize), WireFault>
        ensures { shown_reached result ≡ value_at self.now.message.now wire_type self.now.at }
    {
        match wire_type {
            0 => {
                let varint = self.first_varint()?;
                Ok((WireValue::Varint(varint.value), varint.next))
            }
            1 => {
                let number = u64::from_le_bytes(self.first_array()?);
                Ok((WireValue::Fixed64(number), self.at + 8))
            }
            2 => self.first_part(),
            5 => {
                let number = u32::from_le_bytes(self.first_array()?);
                Ok((WireValue::Fixed32(number), self.at + 4))
            }
            // Stays: wire types are matched here alone; an enum of them would be read from the key by the same match.
            _ => Err(WireFault::Malformed),
        }
    }
}

// The field at a place.
#[tactic(auto, unfolding(crate::specs::Fields::field_at))]
pub fn read_field<'a>(message: &'a [u8], at: usize) -> Result<WireField<'a>, WireFault>
    ensures reads_the_field { shown result ≡ field_at message.now at }
    ensures moves_on { IfOk result (λ f. at < f.next) }
    ensures stays_inside { IfOk result (λ f. f.next ≤ length message.now) }
{
    let varint = read_varint(message, at)?;
    let key = u32::try_from(varint.value).map_err(|_| WireFault::Malformed)?;
    if key / 8 == 0 {
        return Err(WireFault::Malformed);
    }
    let rest = Rest {
        message,
        at: varint.next,
    };
    let (value, next) = rest.first_value(key % 8)?;
    Ok(WireField {
        number: key / 8,
        value,
        next,
    })
}
