// A scheme from what the name node sends of a policy, or from a policy's name.
ghost use Rattle.std.specs.Prelude.{◌≡◌};
ghost use Rattle.policy.specs.Policies.{policy_of};
ghost use Rattle.policy.specs.Resolved.{plain_answer, checked, listed, resolved, named};

use crate::codec::Codec;
use crate::fault::PolicyFault;
use crate::schema::EcSchema;
use crate::table::{policy_by_id, policy_id};

// The schema of a policy message, where it carries one.
#[derive(Clone, Copy, PartialEq, Eq, Debug)]
pub struct SentSchema<'a> {
    pub codec_name: &'a str,
    pub data_units: u32,
    pub parity_units: u32,
}

impl EcSchema {
    // The scheme of these parts, if they keep every limit.
    pub fn new(
        codec: Codec,
        data_units: usize,
        parity_units: usize,
        cell_size: usize,
    ) -> Result<EcSchema, PolicyFault>
        ensures { plain_answer result ≡ checked codec data_units parity_units cell_size }
    {
        // Subtracted, since the sum of what was sent could wrap.
        if !(1..=15).contains(&data_units)
            || !(1..=16 - data_units).contains(&parity_units)
            || !(1..=1_048_576).contains(&cell_size)
            || (codec == Codec::Xor && parity_units != 1)
        {
            return Err(PolicyFault::Limit);
        }
        Ok(EcSchema {
            codec,
            data_units,
            parity_units,
            cell_size,
        })
    }
}

// The scheme of a policy by its id.
pub fn schema_by_id(id: u32) -> Result<EcSchema, PolicyFault>
    ensures { plain_answer result ≡ listed (policy_of id) }
{
    let p = policy_by_id(id).ok_or(PolicyFault::Unknown)?;
    EcSchema::new(p.codec, p.data_units, p.parity_units, p.cell_size)
}

// The scheme of a policy that is named as text.
pub fn schema_by_name(name: &str) -> Result<EcSchema, PolicyFault>
    ensures { plain_answer result ≡ named name.now }
{
    schema_by_id(policy_id(name).ok_or(PolicyFault::Unknown)?)
}

// The scheme of a policy message: a schema sent along wins over the id. A cell size that is absent comes as 0.
pub fn resolve_ec_policy(
    id: u32,
    cell_size: u32,
    schema: Option<SentSchema<'_>>,
) -> Result<EcSchema, PolicyFault>
    ensures { plain_answer result ≡ resolved id cell_size schema.entry }
{
    let Some(sent) = schema else {
        return schema_by_id(id);
    };
    EcSchema::new(
        sent.codec_name.parse()?,
        sent.data_units as usize,
        sent.parity_units as usize,
        cell_size as usize,
    )
}
