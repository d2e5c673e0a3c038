// The codes that parity can be made by.
ghost use Rattle.std.specs.Prelude.{◌≡◌, Some};
ghost use Rattle.std.specs.Option.{ok_or};
ghost use Rattle.policy.specs.declared.fault.PolicyFault.TheVariants.{Unknown};
ghost use Rattle.policy.specs.Codecs.{codec_of};

use crate::fault::PolicyFault;
use std::fmt;
use std::str::FromStr;

#[derive(Clone, Copy, PartialEq, Eq, Debug)]
pub enum Codec {
    Rs,
    RsLegacy,
    Xor,
}

impl Codec {
    // Its name as a schema spells it.
    // Stays: what it answers is promised, which no derive does.
    pub fn name(self) -> &'static str
        ensures { codec_of result.now ≡ Some self }
    {
        match self {
            Codec::Rs => "rs",
            Codec::RsLegacy => "rs-legacy",
            Codec::Xor => "xor",
        }
    }
}

// Stays: a derive would have the three names a second time.
impl fmt::Display for Codec {
    fn fmt<W: fmt::Write>(&self, f: &mut fmt::Formatter<W>) -> fmt::Result {
        f.write_str(self.name())
    }
}

impl FromStr for Codec {
    type Err = PolicyFault;

    ghost from_str_gives = { λ name r. r ≡ ok_or (codec_of name) Unknown };

    fn from_str(name: &str) -> Result<Codec, PolicyFault> {
        match name {
            "rs" => Ok(Codec::Rs),
            "rs-legacy" => Ok(Codec::RsLegacy),
            "xor" => Ok(Codec::Xor),
            // Stays: names are matched as literal cases, as the project asks; any other is unknown.
            _ => Err(PolicyFault::Unknown),
        }
    }
}
