// The line that bursts come over.
ghost use Rattle.std.specs.Prelude.{◌≡◌, true, false};

// Whether the head talks on the line or listens.
#[derive(Clone, Copy, Debug, Default, PartialEq, Eq)]
pub struct LineRecord {
    pub talking: bool,
}

impl LineRecord {
    // A line that listens.
    pub fn new() -> LineRecord
        ensures { result.talking ≡ false }
    {
        LineRecord { talking: false }
    }

    // The line talks from now on; whoever calls this holds a `Talk` over the line, which ends it.
    pub fn begin(&mut self)
        ensures { self.new.talking ≡ true }
    {
        self.talking = true;
    }
}

// Held while a reply is written or a carrier test lasts. Where it ends, in whatever way, the line listens again.
pub struct Talk<'a>(pub &'a mut LineRecord);

impl Drop for Talk<'_> {
    fn drop(self)
        ensures { self.exit.0.now.talking ≡ false }
    {
        self.0.talking = false;
        let Talk(_) = self;
    }
}
