// What a line asks of the library.
use crate::fault::Fault;
use policy::{Codec, EcSchema, PolicyFault, SentSchema, resolve_ec_policy};

// How many data and parity cells a row has.
#[derive(Clone, Copy, PartialEq, Eq, Debug)]
pub(crate) struct Units {
    pub(crate) data: usize,
    pub(crate) parity: usize,
}

// What a policy message says of a scheme.
#[derive(Clone, Copy, PartialEq, Eq, Debug)]
pub(crate) struct Message<'a> {
    id: u32,
    cell_size: u32,
    schema: Option<SentSchema<'a>>,
}

#[derive(Clone, Copy, PartialEq, Eq, Debug)]
pub(crate) enum Question<'a> {
    // the parity cells of data cells
    Encode(Codec, Units, &'a [&'a str]),
    // the data cells of all rows, from the shards that are there
    Decode(Message<'a>, &'a [&'a str]),
    // the matrix of `rs`
    Matrix(Units),
    // the inverse of some of its rows
    Inverse(Units, &'a [&'a str]),
    // the lengths of the shards of a block, by the size of a cell and the block's length
    Shards(Units, usize, u64),
    // the scheme of a policy
    Policy(Message<'a>),
}

impl Units {
    pub(crate) fn schema(self, codec: Codec, cell_size: usize) -> Result<EcSchema, PolicyFault> {
        EcSchema::new(codec, self.data, self.parity, cell_size)
    }
}

impl Message<'_> {
    pub(crate) fn resolve(self) -> Result<EcSchema, PolicyFault> {
        resolve_ec_policy(self.id, self.cell_size, self.schema)
    }
}

fn read_units(data: &str, parity: &str) -> Result<Units, Fault> {
    Ok(Units {
        data: data.parse()?,
        parity: parity.parse()?,
    })
}

// A message with a schema of CODEC D P S.
fn read_message<'a>(id: u32, schema: [&'a str; 4]) -> Result<Message<'a>, Fault> {
    let [codec_name, data, parity, size] = schema;
    let sent = SentSchema {
        codec_name,
        data_units: data.parse()?,
        parity_units: parity.parse()?,
    };
    Ok(Message {
        id,
        cell_size: size.parse()?,
        schema: Some(sent),
    })
}

// A message with an id alone.
fn read_id<'a>(id: &str) -> Result<Message<'a>, Fault> {
    Ok(Message {
        id: id.parse()?,
        cell_size: 0,
        schema: None,
    })
}

pub(crate) fn read_question<'a>(words: &'a [&'a str]) -> Result<Question<'a>, Fault> {
    let question = match words {
        ["encode", d, p, cells @ ..] => Question::Encode(Codec::Rs, read_units(d, p)?, cells),
        ["xor", d, cells @ ..] => Question::Encode(Codec::Xor, read_units(d, "1")?, cells),
        ["matrix", d, p] => Question::Matrix(read_units(d, p)?),
        ["inverse", d, p, rows @ ..] => Question::Inverse(read_units(d, p)?, rows),
        ["decode", c, d, p, s, shards @ ..] => {
            Question::Decode(read_message(0, [*c, *d, *p, *s])?, shards)
        }
        ["shards", d, p, s, len] => {
            Question::Shards(read_units(d, p)?, s.parse()?, len.parse()?)
        }
        ["policy", id] => Question::Policy(read_id(id)?),
        ["policy", id, c, d, p, s] => {
            Question::Policy(read_message(id.parse()?, [*c, *d, *p, *s])?)
        }
        // Stays: (d) nothing is handed on here: words of another form are a fault.
        _ => return Err(Fault::Form),
    };
    Ok(question)
}
