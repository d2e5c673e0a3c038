// A field as an interface by its laws, and the two fields of the codes: 256 elements for `rs`, two for `xor`.
#![tactic(auto)]

ghost use Rattle.std.specs.Prelude.{◌≡◌, ◌<◌, Decides};
ghost use Rattle.algebra.specs.Fields.{Ops, FieldLaws};
ghost use Rattle.field.specs.Inverted.{InverseOf};

mod bytes;
mod field2;
mod field256;
pub mod gf2;
pub mod gf256;

pub use bytes::multiply;

// What the codes need of a field. Its operations are its meaning; each implementation shows their laws.
pub trait Field: Copy {
    ghost ops: { Ops Self };

    fn zero() -> Self
        ensures { result ≡ ops.zero };

    fn one() -> Self
        ensures { result ≡ ops.one };

    fn add(self, other: Self) -> Self
        ensures { result ≡ ops.plus self other };

    fn sub(self, other: Self) -> Self
        ensures { result ≡ ops.minus self other };

    fn mul(self, other: Self) -> Self
        ensures { result ≡ ops.times self other };

    fn is_zero(self) -> bool
        ensures { Decides result (self ≡ ops.zero) };

    // None of zero alone.
    fn inverse(self) -> Option<Self>
        ensures { InverseOf ops self result };

    // What the element makes of a byte.
    fn act(self, byte: u8) -> u8
        ensures { result ≡ ops.act self byte };

    ghost field: { FieldLaws ops };
}
