// A pen that lays forms over the bytes of a space.
ghost use Rattle.std.specs.Prelude.{◌≡◌, ℕ, List, length};
ghost use Rattle.std.specs.List.{flat_map};
ghost use Rattle.writer.specs.Pens.{HasRoom, Lays};

// A space, and the place where the next form is laid over its bytes.
#[derive(Drop)]
pub(crate) struct Pen<'a> {
    space: &'a mut [u8],
    at: usize,
}

impl<'a> Pen<'a> {
    // A pen at a place of a space.
    pub(crate) fn new(space: &'a mut [u8], at: usize) -> Pen<'a>
        ensures same { result.space.ghost_name ≡ space.entry.ghost_name }
        ensures space { result.space.now ≡ space.old }
        ensures at { result.at ≡ at }
    {
        Pen { space, at }
    }

    // Lays a form, and moves on behind it.
    pub(crate) fn lay(&mut self, form: &[u8])
        requires { HasRoom self.old (length form.now) }
        ensures { Lays self.old form.now self.new }
    {
        let end = self.at + form.len();
        self.space[self.at..end].copy_from_slice(form);
        self.at = end;
    }
}

// What is laid of each of some items.
pub(crate) trait Part<T: Copy> {
    ghost written: { T → List ℕ };

    // Lays what there is of an item.
    fn lay_one(pen: &mut Pen<'_>, item: T)
        requires { HasRoom pen.old (length (written item)) }
        ensures { Lays pen.old (written item) pen.new };
}

// Lays a part of each of some items, one after the other.
pub(crate) fn lay_each<P: Part<T>, T: Copy>(pen: &mut Pen<'_>, items: &[T])
    requires { HasRoom pen.old (length (flat_map P.written items.now)) }
    ensures { Lays pen.old (flat_map P.written items.now) pen.new }
{
    for item in items {
        P::lay_one(pen, *item);
    }
}
