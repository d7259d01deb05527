// The fields of a line.
ghost use Rattle.std.specs.Prelude.{◌≡◌};
ghost use Rattle.writing.specs.Fields.{fields};

// The fields of a line: one less for a kind of one column than for a kind of two.
#[derive(Clone, Copy)]
pub(crate) enum Fields<T, const ONE: usize, const TWO: usize> {
    OneColumn([T; ONE]),
    TwoColumns([T; TWO]),
}

impl<T, const ONE: usize, const TWO: usize> Fields<T, ONE, TWO> {
    pub(crate) fn as_slice(&self) -> &[T]
        ensures { result.now ≡ fields self.now }
    {
        match self {
            Fields::OneColumn(items) => items,
            Fields::TwoColumns(items) => items,
        }
    }
}
