// What the command line asks for.
use crate::refusal::Refusal;
use cells::StripedBlock;
use policy::{EcSchema, SentSchema, resolve_ec_policy, schema_by_id, schema_by_name};

#[derive(Clone, Copy, PartialEq, Eq, Debug)]
pub(crate) struct Request<'a> {
    pub(crate) block: StripedBlock,
    pub(crate) folder: &'a str,
    pub(crate) out: &'a str,
}

fn read_number(text: &str) -> Result<u64, Refusal> {
    text.parse().map_err(|_| Refusal::Usage)
}

// A number that is too large for a policy message breaks a limit all the more.
fn read_part(text: &str) -> Result<u32, Refusal> {
    Ok(u32::try_from(read_number(text)?).unwrap_or(u32::MAX))
}

// A scheme as CODEC,DATA,PARITY,CELL.
fn read_schema(text: &str) -> Result<EcSchema, Refusal> {
    let mut parts = text.split(',');
    let mut next = || parts.next().ok_or(Refusal::Usage);
    let codec_name = next()?;
    let data_units = read_part(next()?)?;
    let parity_units = read_part(next()?)?;
    let cell_size = read_part(next()?)?;
    if parts.next().is_some() {
        return Err(Refusal::Usage);
    }
    let sent = SentSchema {
        codec_name,
        data_units,
        parity_units,
    };
    Ok(resolve_ec_policy(0, cell_size, Some(sent))?)
}

fn read_scheme(option: &str, value: &str) -> Result<EcSchema, Refusal> {
    match option {
        "--policy" => Ok(schema_by_name(value)?),
        "--id" => Ok(schema_by_id(read_part(value)?)?),
        "--schema" => read_schema(value),
        // Stays: (d) nothing is handed on here: a word that is no option is refused.
        _ => Err(Refusal::Usage),
    }
}

// The words of the command line, the program's own name first.
pub(crate) fn read_request<'a>(words: &[&'a str]) -> Result<Request<'a>, Refusal> {
    let words = <[&'a str; 6]>::try_from(words).map_err(|_| Refusal::Usage)?;
    let [_, option, value, len, folder, out] = words;
    let block = StripedBlock {
        schema: read_scheme(option, value)?,
        len: read_number(len)?,
    };
    Ok(Request { block, folder, out })
}
