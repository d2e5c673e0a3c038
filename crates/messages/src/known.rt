// What is known of a response and of the messages in it, of whatever depth.
ghost use Rattle.std.specs.Prelude.{◌≡◌};
ghost use Rattle.wire.specs.Shown.{shown_field};
ghost use Rattle.packets.specs.Kinds.{message_in};
ghost use Rattle.messages.specs.Kinds.{kind_meant, kind_found};
ghost use Rattle.messages.specs.Levels.{any_field, with_message, with_held, with_inner, with_inner_held, with_deeper, with_parts_of, with_deeper_of};

use crate::fields::{Gathered, read_fields};
use crate::parts::{ChecksumFields, ChecksumsFields, InfoFields, OptionsFields, ResponseFields};
use wire::{WireFault, WireField, WireValue};

// The kinds of messages that a response is made of.
#[derive(Clone, Copy, PartialEq, Eq, Debug)]
pub(crate) enum Kind {
    Response,
    Checksums,
    Options,
    Info,
    Checksum,
}

impl Kind {
    // The kind of the message in a field, if there is one.
    fn inner(self, number: u32) -> Option<Kind>
        ensures { kind_found result ≡ message_in (kind_meant self) number }
    {
        match (self, number) {
            (Kind::Response, 3) => Some(Kind::Checksums),
            (Kind::Response, 4) => Some(Kind::Info),
            (Kind::Checksums, 5) => Some(Kind::Options),
            (Kind::Info, 1) => Some(Kind::Checksum),
            // Stays: nothing is handed on here: no other field holds a message.
            _ => None,
        }
    }
}

// The fields so far of each kind of message that is there; each stands at one place only.
#[derive(Clone, Copy, PartialEq, Eq, Debug, Default)]
pub(crate) struct Known {
    pub response: Option<ResponseFields>,
    pub checksums: Option<ChecksumsFields>,
    pub options: Option<OptionsFields>,
    pub info: Option<InfoFields>,
    pub checksum: Option<ChecksumFields>,
}

impl Known {
    // With the fields of a message, or of one more part of it.
    pub fn open(self, kind: Kind, message: &[u8]) -> Result<Known, WireFault>
        ensures { result ≡ with_message self (kind_meant kind) message.now }
    {
        let mut known = self;
        match kind {
            Kind::Response => known.response = Some(read_fields(
                message,
                self.response.unwrap_or(ResponseFields::default()),
            )?),
            Kind::Checksums => known.checksums = Some(read_fields(
                message,
                self.checksums.unwrap_or(ChecksumsFields::default()),
            )?),
            Kind::Options => known.options = Some(read_fields(
                message,
                self.options.unwrap_or(OptionsFields::default()),
            )?),
            Kind::Info => known.info = Some(read_fields(
                message,
                self.info.unwrap_or(InfoFields::default()),
            )?),
            Kind::Checksum => known.checksum = Some(read_fields(
                message,
                self.checksum.unwrap_or(ChecksumFields::default()),
            )?),
        }
        Ok(known)
    }

    // With the message in a field, if it holds one.
    fn open_held(self, kind: Kind, field: WireField<'_>) -> Result<Known, WireFault>
        ensures { result ≡ with_held (kind_meant kind) self (shown_field field.entry) }
    {
        match (kind.inner(field.number), field.value) {
            (Some(inner), WireValue::Part { bytes, .. }) => self.open(inner, bytes),
            _ => Ok(self),
        }
    }

    // With the messages in the fields of a message.
    #[tactic(auto, using(crate::proofs::Walks::walking))]
    pub fn open_inner(self, kind: Kind, message: &[u8]) -> Result<Known, WireFault>
        ensures { result ≡ with_inner self (kind_meant kind) message.now }
    {
        let start = PartsOf {
            kind,
            known: Ok(self),
        };
        read_fields(message, start)?.known
    }

    // With the messages in the message in a field, if it holds one.
    fn open_inner_held(self, kind: Kind, field: WireField<'_>) -> Result<Known, WireFault>
        ensures { result ≡ with_inner_held (kind_meant kind) self (shown_field field.entry) }
    {
        match (kind.inner(field.number), field.value) {
            (Some(inner), WireValue::Part { bytes, .. }) => self.open_inner(inner, bytes),
            _ => Ok(self),
        }
    }

    // With the messages two levels deeper than a message.
    #[tactic(auto, using(crate::proofs::Walks::walking))]
    pub fn open_deeper(self, kind: Kind, message: &[u8]) -> Result<Known, WireFault>
        ensures { result ≡ with_deeper self (kind_meant kind) message.now }
    {
        let start = DeeperOf {
            kind,
            known: Ok(self),
        };
        read_fields(message, start)?.known
    }
}

// A walk over a message, of which the fields are read already, for the messages in it; after a fault it opens none.
#[derive(Clone, Copy, PartialEq, Eq, Debug)]
struct PartsOf {
    kind: Kind,
    known: Result<Known, WireFault>,
}

impl Gathered for PartsOf {
    ghost fitting = { any_field };

    ghost with_one = { with_parts_of };

    fn with(self, field: WireField<'_>) -> Result<PartsOf, WireFault> {
        // Stays: (c) tried `and_then`: the search does not find what its closure answers.
        let known = match self.known {
            Ok(known) => known.open_held(self.kind, field),
            Err(fault) => Err(fault),
        };
        Ok(PartsOf { known, ..self })
    }
}

// The same for the messages two levels deeper.
// Stays: the two walks differ in what each field is given to, and each level stands on the one before; as one it would call itself.
#[derive(Clone, Copy, PartialEq, Eq, Debug)]
struct DeeperOf {
    kind: Kind,
    known: Result<Known, WireFault>,
}

impl Gathered for DeeperOf {
    ghost fitting = { any_field };

    ghost with_one = { with_deeper_of };

    fn with(self, field: WireField<'_>) -> Result<DeeperOf, WireFault> {
        // Stays: (c) tried `and_then`: the search does not find what its closure answers.
        let known = match self.known {
            Ok(known) => known.open_inner_held(self.kind, field),
            Err(fault) => Err(fault),
        };
        Ok(DeeperOf { known, ..self })
    }
}
