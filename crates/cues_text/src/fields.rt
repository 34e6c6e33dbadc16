// The fields of a line as a call takes them.
ghost use Rattle.std.specs.Prelude.{◌≡◌, ◌-◌, ◌≤◌, ◌<◌, length};
ghost use Rattle.std.proofs.lemmas.List.Edits.{sets};
ghost use Rattle.cues_text.specs.Args.{low_of, number_arg, frame_arg, numbers_from};

// Their values, one each, in a list with room for those of the longest line, and how many the line has.
// A field that it lacks has whatever stands there.
// Kept: the count is beside the list, since `read_line` is lent the whole list and leaves what is past its fields.
#[derive(Clone, Copy, Debug, PartialEq, Eq)]
pub struct Fields<'a> {
    pub values: &'a [u64],
    pub count: u32,
    ghost room: { 2048 ≤ length values.now },
    ghost few: { count < 2048 },
}

impl Fields<'_> {
    pub fn number(&self, field: usize) -> u32
        requires { field < length self.now.values.now }
        ensures { result ≡ number_arg self.now.values.now field }
    {
        number_arg(self.values, field)
    }

    pub fn frame(&self, field: usize) -> i32
        requires { field < length self.now.values.now }
        ensures { result ≡ frame_arg self.now.values.now field }
    {
        frame_arg(self.values, field)
    }

    // The numbers of the fields from one on, as many as the line has, to the front of a list; the rest of it stays. Answers how many.
    // Kept: a filling that answers a length, since nothing here can answer a list of its own.
    pub fn numbers(&self, from: usize, numbers: &mut [u32]) -> usize
        requires { (from ≤ 2048) × (2048 ≤ length numbers.old) }
        ensures { (result ≡ self.now.count - from) × (numbers.new ≡ sets numbers.old 0 (numbers_from self.now.values.now from result)) }
    {
        let n = (self.count as usize).saturating_sub(from);
        let values = &self.values[from..from + n];
        for (i, &value) in values.iter().enumerate() {
            numbers[i] = low(value);
        }
        n
    }
}

// A field's value: the 32 bits that it stands for.
// Kept: a remainder, as the definition `low_of` has it; a cast may lose nothing.
pub fn low(value: u64) -> u32
    ensures { result ≡ low_of value }
{
    (value % 4294967296) as u32
}

// A field as a number or a word, of values that stand in no `Fields`.
pub fn number_arg(args: &[u64], field: usize) -> u32
    requires { field < length args.now }
    ensures { result ≡ number_arg args.now field }
{
    low(args[field])
}

// A field as a frame.
pub fn frame_arg(args: &[u64], field: usize) -> i32
    requires { field < length args.now }
    ensures { result ≡ frame_arg args.now field }
{
    number_arg(args, field).cast_signed()
}
