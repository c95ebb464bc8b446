// The names that a source of the explicit form doesn't declare, by what is declared.
ghost use Rattle.std.specs.Prelude.{◌≡◌};
ghost use Rattle.explicit_form.specs.Fit.{is_among, taken_types, taken_constructors, taken_functions};
ghost use Rattle.explicit_form.specs.Judged.{taken_of};

// What is declared.
#[derive(Clone, Copy)]
pub enum Kind {
    Data,
    Constructor,
    Function,
}

// Whether no declaration of this kind has this name.
pub fn is_taken(kind: Kind, name: &[u8]) -> bool
    ensures { result ≡ is_among name.now (taken_of kind) }
{
    match kind {
        Kind::Data => is_taken_type(name),
        Kind::Constructor => is_taken_constructor(name),
        Kind::Function => is_taken_function(name),
    }
}

fn is_taken_type(name: &[u8]) -> bool
    ensures { result ≡ is_among name.now taken_types }
{
    name == b"Bool".as_slice()
        || name == b"Maybe".as_slice()
        || name == b"Either".as_slice()
        || name == b"I".as_slice()
        || name == b"ReT".as_slice()
        || name == b"StateT".as_slice()
}

fn is_taken_constructor(name: &[u8]) -> bool
    ensures { result ≡ is_among name.now taken_constructors }
{
    name == b"False".as_slice()
        || name == b"True".as_slice()
        || name == b"Nothing".as_slice()
        || name == b"Just".as_slice()
        || name == b"Left".as_slice()
        || name == b"Right".as_slice()
}

// `start`, and the variables of the prelude and the operations.
fn is_taken_function(name: &[u8]) -> bool
    ensures { result ≡ is_among name.now taken_functions }
{
    name == b"start".as_slice()
        || name == b"id".as_slice()
        || name == b"const".as_slice()
        || name == b"flip".as_slice()
        || name == b"not".as_slice()
        || name == b"otherwise".as_slice()
        || name == b"fst".as_slice()
        || name == b"snd".as_slice()
        || name == b"curry".as_slice()
        || name == b"uncurry".as_slice()
        || name == b"maybe".as_slice()
        || name == b"either".as_slice()
        || name == b"when".as_slice()
        || name == b"return".as_slice()
        || name == b"get".as_slice()
        || name == b"put".as_slice()
        || name == b"lift".as_slice()
        || name == b"signal".as_slice()
        || name == b"extrude".as_slice()
        || name == b"par".as_slice()
        || name == b"refold".as_slice()
}
