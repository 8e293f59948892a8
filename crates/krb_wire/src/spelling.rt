//! Names as files encode them.

ghost use Rattle.std.specs.List.{flat_map, AllByRecursion};
ghost use Rattle.krb_wire.specs.Text.{HasRoom, Puts};
ghost use Rattle.krb_wire.specs.Spelling.{data_text, FitsLength};

pub mod cache;
pub mod keytab;

use crate::format::Lengths;
use crate::name::Name;
use crate::pen::Pen;

impl Pen<'_> {
    /// Writes the components of a name.
    pub fn put_components<N: Name>(&mut self, lengths: Lengths, name: &N)
        requires fits { AllByRecursion (FitsLength lengths) (N.parts name.now).components }
        requires room { HasRoom self.old (flat_map (data_text lengths) (N.parts name.now).components) }
        ensures { Puts self.old self.new (flat_map (data_text lengths) (N.parts name.now).components) }
    {
        for component in name.components() {
            self.put_data(lengths, component);
        }
    }
}
