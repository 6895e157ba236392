ghost use Rattle.std.specs.Prelude.{◌≡◌, is_some, map, string_bytes, true};
ghost use Rattle.cli_words.specs.Examples.{GiveNone, GiveOrders, NameTheFolder};
ghost use Rattle.cli_words.specs.Orders.{are_known, order_in};

/// A law: what the words of the usage give, and some that are close to them; and that a folder of any name can be
/// told.
pub fn usual_words_are_read(folder: &str)
    ensures orders { GiveOrders }
    ensures none { GiveNone }
    ensures folder { NameTheFolder folder.now }
{}

/// A law: words that `clap` takes give an order, unless they name a load whose numbers aren't spelled or too large.
pub fn known_words_give_an_order(words: &[String])
    requires { are_known (map string_bytes words.now) ≡ true }
    ensures { is_some (order_in (map string_bytes words.now)) ≡ true }
{}
