//! The two versions of the format, which differ in the ports of a node.

ghost use Rattle.std.specs.Prelude.{◌≡◌};
ghost use Rattle.ww_script_parts.specs.Versions.{ports_of};

use ww_plain::PORTS;

/// Which version of the format an input has.
#[derive(Clone, Copy, Debug, PartialEq, Eq)]
pub enum Version {
    /// The first one, whose nodes have fewer ports than there are.
    One,
    /// The second one, whose nodes have all ports.
    Two,
}

impl Version {
    /// How many ports the nodes of such an input have. The others of a node are empty.
    pub fn ports(self) -> u8
        ensures { result ≡ ports_of self }
    {
        match self {
            Version::One => 4,
            Version::Two => PORTS as u8,
        }
    }
}
