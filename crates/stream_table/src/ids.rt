//! The highest ids that the two ends used (RSocket 1.0, "Stream Identifiers").

ghost use Rattle.std.specs.Prelude.{◌≡◌, ◌<◌, ◌^◌, ◌%◌, ◌==◌, if◌then◌else◌};
ghost use Rattle.stream_model.specs.Streams.{higher};
ghost use Rattle.stream_model.specs.Known.{id_after};
ghost use Rattle.stream_table.specs.Tables.{by_side};

use rs_wire::Side;

/// The highest ids, of each parity.
#[derive(Clone, Copy, Debug)]
pub struct Ids {
    /// The highest even id that was used, 0 for none.
    pub even: u32,
    /// The highest odd id that was used, 0 for none.
    pub odd: u32,
}

impl Ids {
    /// The highest id of an end: the client's are odd, the server's even.
    pub fn of(&self, side: Side) -> u32
        ensures { result ≡ by_side side self.now.odd self.now.even }
    {
        match side {
            Side::Client => self.odd,
            Side::Server => self.even,
        }
    }

    /// The highest id of the parity of this one.
    pub fn like(&self, id: u32) -> u32
        ensures { result ≡ (if id % 2 == 1 then self.now.odd else self.now.even) }
    {
        if id % 2 == 1 { self.odd } else { self.even }
    }

    /// The id after the highest of an end: 1 is the client's first one, 2 the server's.
    pub fn after(&self, side: Side) -> u32
        requires even { self.now.even < 2 ^ 31 }
        requires odd { self.now.odd < 2 ^ 31 }
        ensures { result ≡ by_side side (id_after 1 self.now.odd) (id_after 2 self.now.even) }
    {
        let highest = self.of(side);
        if highest > 0 {
            return highest + 2;
        }
        match side {
            Side::Client => 1,
            Side::Server => 2,
        }
    }

    /// The id is used from now on.
    pub fn raise(&mut self, id: u32)
        ensures even { self.new.even ≡ higher 0 id self.old.even }
        ensures odd { self.new.odd ≡ higher 1 id self.old.odd }
    {
        if id % 2 == 1 {
            self.odd = self.odd.max(id);
        } else {
            self.even = self.even.max(id);
        }
    }
}
