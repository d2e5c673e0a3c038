// Hadoop's built-in policies, by id and by name.
ghost use Rattle.std.specs.Prelude.{◌≡◌, ◌==◌};
ghost use Rattle.std.specs.List.{find};
ghost use Rattle.policy.specs.declared.table.Policy.{Policy};
ghost use Rattle.policy.specs.Policies.{policy_of, id_of};

use crate::codec::Codec;

// Stays: the project asks for rows of these columns; a scheme in their place would be checked twice.
#[derive(Clone, Copy, PartialEq, Eq, Debug)]
pub struct Policy {
    pub id: u32,
    pub codec: Codec,
    pub data_units: usize,
    pub parity_units: usize,
    pub cell_size: usize,
}

const POLICIES: [Policy; 5] = [
    Policy {
        id: 1,
        codec: Codec::Rs,
        data_units: 6,
        parity_units: 3,
        cell_size: 1_048_576,
    },
    Policy {
        id: 2,
        codec: Codec::Rs,
        data_units: 3,
        parity_units: 2,
        cell_size: 1_048_576,
    },
    Policy {
        id: 3,
        codec: Codec::RsLegacy,
        data_units: 6,
        parity_units: 3,
        cell_size: 1_048_576,
    },
    Policy {
        id: 4,
        codec: Codec::Xor,
        data_units: 2,
        parity_units: 1,
        cell_size: 1_048_576,
    },
    Policy {
        id: 5,
        codec: Codec::Rs,
        data_units: 10,
        parity_units: 4,
        cell_size: 1_048_576,
    },
];

// The row of an id.
fn row_by_id(rows: &[Policy], id: u32) -> Option<Policy>
    ensures { result ≡ find (λ (row : Policy). id == row.id) rows.now }
{
    rows.iter().copied().find(|row| id == row.id)
}

// The policy of an id; none where the id is not one of the five.
pub fn policy_by_id(id: u32) -> Option<Policy>
    ensures { result ≡ policy_of id }
{
    row_by_id(&POLICIES, id)
}

// The id of a policy that is named as text.
pub fn policy_id(name: &str) -> Option<u32>
    ensures { result ≡ id_of name.now }
{
    match name {
        "RS-6-3-1024k" => Some(1),
        "RS-3-2-1024k" => Some(2),
        "RS-LEGACY-6-3-1024k" => Some(3),
        "XOR-2-1-1024k" => Some(4),
        "RS-10-4-1024k" => Some(5),
        // Stays: names are matched as literal cases, as the project asks; any other has no id.
        _ => None,
    }
}
