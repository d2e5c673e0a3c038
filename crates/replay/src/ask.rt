// The library's answer to a question, as the data files write answers.
use crate::answer::Answer;
use crate::fault::Fault;
use crate::question::{Question, read_question};
use cells::StripedBlock;
use policy::{Codec, EcSchema};
use std::alloc::{AllocError, Global};

impl Answer {
    fn write_scheme(&mut self, schema: EcSchema) -> Result<(), AllocError> {
        self.write_word(schema.codec)?;
        self.write_word(schema.data_units)?;
        self.write_word(schema.parity_units)?;
        self.write_word(schema.cell_size)
    }

    fn write_lengths(&mut self, block: StripedBlock) -> Result<(), AllocError> {
        (0..block.schema.units()).try_for_each(|i| self.write_word(block.max_offset(i)))
    }

    fn write(&mut self, question: Question<'_>) -> Result<(), Fault> {
        match question {
            Question::Encode(codec, units, cells) => self.write_parity(codec, units, cells)?,
            Question::Decode(message, shards) => self.write_data(message.resolve()?, shards)?,
            Question::Matrix(units) => self.write_matrix(units)?,
            Question::Inverse(units, rows) => self.write_inverse(units, rows)?,
            Question::Shards(units, size, len) => {
                let schema = units.schema(Codec::Rs, size)?;
                self.write_lengths(StripedBlock { schema, len })?;
            }
            Question::Policy(message) => self.write_scheme(message.resolve()?)?,
        }
        Ok(())
    }
}

// The words of the answer, or the refusal's number after `refuse`.
pub(crate) fn ask(heap: Global, question: &str) -> Result<String, Fault> {
    let words: Vec<&str> = question.split(' ').collect(heap)?;
    let mut answer = Answer::new(heap);
    match answer.write(read_question(words.as_slice())?) {
        Err(fault) if fault.is_refusal() => Ok(fault.to_string(heap)?),
        written => {
            written?;
            Ok(answer.into_text())
        }
    }
}
