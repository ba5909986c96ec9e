ghost use Rattle.std.specs.Prelude.{◌≡◌, ◌<◌, length, slice_index};
ghost use Rattle.reader.specs.Tokens.{cut_at};

use kinds::{Kind, Refused};
use trees::Postfix;

// A token of a pattern's text; an atom with its class of symbols.
#[derive(Clone, Copy)]
pub enum Token<C> {
    Open,
    Close,
    Bar,
    Repeat(Postfix),
    Atom(C),
}

// A token as it was cut from the text, and how many bytes spell it.
#[derive(Clone, Copy)]
pub struct Cut<C> {
    pub token: Token<C>,
    pub length: usize,
}

// The token at a place of the text: an operator, or else an atom of the kind. There is a byte at the place: at the
// text's end there is no token, which is no refusal.
pub(crate) fn token_at<K: Kind>(text: &[u8], place: usize) -> Result<Cut<K::Class>, Refused>
    requires { place < length text.now }
    ensures { result ≡ cut_at K.Kind.reading text.now place (slice_index text.now place) }
{
    let token = match text[place] {
        b'(' => Token::Open,
        b')' => Token::Close,
        b'|' => Token::Bar,
        b'*' => Token::Repeat(Postfix::Star),
        b'+' => Token::Repeat(Postfix::Plus),
        b'?' => Token::Repeat(Postfix::Optional),
        _ => {
            let atom = K::read_atom(text, place)?;
            return Ok(Cut {
                token: Token::Atom(atom.class),
                length: atom.length,
            });
        }
    };
    Ok(Cut { token, length: 1 })
}
