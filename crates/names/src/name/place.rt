// Names by their place in an area of bytes.
ghost use Rattle.std.specs.Prelude.{◌≡◌};
ghost use Rattle.std.specs.Option.{option_map};
ghost use Rattle.names.specs.Placed.{placed};

use super::NamePlace;

impl NamePlace {
    // The bytes at the place, or None where it passes the area's end.
    pub fn of<'a>(&self, area: &'a [u8]) -> Option<&'a [u8]>
        ensures { option_map (λ x. x.now) result ≡ placed self.now.start self.now.length area.now }
    {
        area.get(self.start..)?.get(..self.length)
    }
}
