// What some entries of an outlook come to.

// How many entries have each of the five subtypes, how many are frames (subtypes 0 to 3), and how many are shown. The
// five stand by their numbers, since a show of an existing frame is no subtype of a model. No fact of the type says
// that a figure is at most 4,096, as contracts do: the definitions that count, add and multiply would have to prove it
// in each record that they make.
#[derive(Clone, Copy, Default)]
pub struct Counts {
    pub kinds: [u32; 5],
    pub frames: u32,
    pub shown: u32,
}
