// Places in trees: their order, the lesser of two, and how one is made.
ghost use Rattle.std.specs.Prelude.{◌≡◌, [], ◌∷◌, IfOk, Some, option_map};
ghost use Rattle.arz_json.specs.declared.place.Token.TheVariants.{Name, Index};
ghost use Rattle.arz_rules.specs.Place.{token_cmp, tokens_cmp, tokens_in, least, here_unless, lesser as lesser_of};

use arz_json::{Many, Place, Text, Token};
use std::alloc::{AllocError, Global};
use std::cmp::Ordering;

fn compare_token(left: &Token, right: &Token) -> Ordering
    ensures { result ≡ token_cmp left.now right.now }
{
    match (left, right) {
        (Token::Name(a), Token::Name(b)) => a.as_str().cmp(&b.as_str()),
        (Token::Name(_), Token::Index(_)) => Ordering::Less,
        (Token::Index(_), Token::Name(_)) => Ordering::Greater,
        (Token::Index(i), Token::Index(k)) => i.cmp(k),
    }
}

fn compare(left: &[Token], right: &[Token]) -> Ordering
    ensures { result ≡ tokens_cmp left.now right.now }
{
    let Some((a, xs)) = left.split_first() else {
        return if right.is_empty() {
            Ordering::Equal
        } else {
            Ordering::Less
        };
    };
    let Some((b, ys)) = right.split_first() else {
        return Ordering::Greater;
    };
    match compare_token(a, b) {
        Ordering::Equal => compare(xs, ys),
        other => other,
    }
}

/// The lesser of two places, where there are any: names are compared by bytes, indexes as numbers, and
/// a prefix comes first.
pub fn lesser(left: Option<Place>, right: Option<Place>) -> Option<Place>
    ensures { tokens_in result ≡ lesser_of (tokens_in left) (tokens_in right) }
{
    match (left, right) {
        (Some(p), Some(q)) => Some(lesser_place(p, q)),
        (Some(p), None) => Some(p),
        (None, other) => other,
    }
}

fn lesser_place(left: Place, right: Place) -> Place
    ensures { lesser_of (Some left.tokens) (Some right.tokens) ≡ Some result.tokens }
{
    if compare(left.tokens.as_slice(), right.tokens.as_slice()) == Ordering::Greater {
        right
    } else {
        left
    }
}

/// The place of the whole tree. It takes no memory.
pub fn root_place(alloc: Global) -> Place
    ensures { result.tokens ≡ [] }
{
    Place {
        tokens: Many::new(alloc),
    }
}

/// The place of the whole tree, unless it fits. It takes no memory.
pub fn root_unless(alloc: Global, fits: bool) -> Option<Place>
    ensures { tokens_in result ≡ least (here_unless fits) }
{
    if fits { None } else { Some(root_place(alloc)) }
}

fn under(place: Place, token: Token) -> Result<Place, AllocError>
    ensures { IfOk result (λ p. p.tokens ≡ token ∷ place.tokens) }
{
    let mut tokens = place.tokens.into_std();
    tokens.insert(0, token)?;
    Ok(Place {
        tokens: Many::from_std(tokens),
    })
}

/// The same place, if any, seen from the object that it lies in, under the member with this name.
pub fn below_name(
    alloc: Global,
    name: &str,
    found: Option<Place>,
) -> Result<Option<Place>, AllocError>
    ensures { IfOk result (λ p. tokens_in p ≡ option_map (λ q. Name name.now ∷ q) (tokens_in found)) }
{
    match found {
        Some(place) => Ok(Some(under(place, Token::Name(Text::from_str(alloc, name)?))?)),
        None => Ok(None),
    }
}

/// The same place, if any, seen from the list that it lies in, under the item at this index.
pub fn below_index(index: usize, found: Option<Place>) -> Result<Option<Place>, AllocError>
    ensures { IfOk result (λ p. tokens_in p ≡ option_map (λ q. Index index ∷ q) (tokens_in found)) }
{
    match found {
        Some(place) => Ok(Some(under(place, Token::Index(index as u64))?)),
        None => Ok(None),
    }
}
