// Banks over lent memory, whatever their words lie in.
ghost use Rattle.std.specs.Prelude.{◌≡◌};

// Lent memory; each kind of bank says how its cells lie in it.
#[derive(Drop)]
pub struct LentBank<'a, T> {
    pub(crate) memory: &'a mut [T],
}

impl<'a, T> LentBank<'a, T> {
    // The bank whose words lie in the lent memory.
    pub fn over(memory: &'a mut [T]) -> LentBank<'a, T>
        ensures { result.memory.now ≡ memory.old }
    {
        LentBank { memory }
    }
}
