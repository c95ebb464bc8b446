// The prelude as a text.
ghost use Rattle.std.specs.Prelude.{◌≡◌};
ghost use Rattle.rw_front.specs.PreludeText.{prelude_text};

const TEXT: &[u8] = b"\
infixr 9 .
infixr 3 &&
infixr 2 ||
infixl 1 >>=, >>
infixr 0 $
data Bool = False | True
data Maybe a = Nothing | Just a
data Either a b = Left a | Right b
id :: a -> a
id x = x
const :: a -> b -> a
const x y = x
flip :: (a -> b -> c) -> b -> a -> c
flip f x y = f y x
(.) :: (b -> c) -> (a -> b) -> a -> c
f . g = \\x -> f (g x)
($) :: (a -> b) -> a -> b
f $ x = f x
not :: Bool -> Bool
not True = False
not False = True
(&&) :: Bool -> Bool -> Bool
True && x = x
False && x = False
(||) :: Bool -> Bool -> Bool
True || x = True
False || x = x
otherwise :: Bool
otherwise = True
fst :: (a, b) -> a
fst (x, y) = x
snd :: (a, b) -> b
snd (x, y) = y
curry :: ((a, b) -> c) -> a -> b -> c
curry f x y = f (x, y)
uncurry :: (a -> b -> c) -> (a, b) -> c
uncurry f (x, y) = f x y
maybe :: b -> (a -> b) -> Maybe a -> b
maybe z f Nothing = z
maybe z f (Just x) = f x
either :: (a -> c) -> (b -> c) -> Either a b -> c
either f g (Left x) = f x
either f g (Right y) = g y
when :: Monad m => Bool -> m () -> m ()
when True k = k
when False k = return ()
";

/// The text of the prelude, as a source (Haskell 2010 Report, chapter 9, in this project's profile): the declarations that
/// stand before those of every source. What is judged are their trees, `rw_prelude::prelude_decls`; this text is for
/// whoever reads them.
pub fn prelude() -> &'static [u8]
    ensures { result.now ≡ prelude_text }
{
    TEXT
}
