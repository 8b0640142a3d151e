//! What a target leads to. Targets are compared byte for byte: nothing in them is decoded, and a `?` belongs to the
//! part in which it stands.

ghost use Rattle.std.specs.Prelude.{◌≡◌, ◌≢◌, ◌↔◌, ℕ, IfNone, IfSome, IsTrue, List, MatchOption, Some, codes, decimal};
ghost use Rattle.escrow.specs.Codes.{IsArticle, IsBranch, IsKey};
ghost use Rattle.escrow.specs.Ranges.{IsMoment, IsOrderNo};
ghost use Rattle.matchit.specs.Params.{AllText, named};
ghost use Rattle.web.specs.Asks.{IsFloor};
ghost use Rattle.web.specs.Routes.{IsView, resource_of, routes, taken};
ghost use Rattle.web.specs.declared.ask.Ask.{Ask as AskOf};

use crate::ask::Ask;
use crate::route::Resource;
use escrow::{Article, Branch, Key, MAX_ORDER_NO, Moment, OrderNo};
use matchit::{Params, Router};
use words::read_number;

/// Returns the view that a target asks for, if it asks for one.
pub fn view_of(router: &Router<Resource>, target: &str) -> Option<Ask>
    requires { router.now ≡ routes }
    ensures some { IfSome result (λ view. IsView target.now view) }
    ensures none { IfNone result ((view : AskOf) → IsView target.now view → ⊥) }
{
    let Ok(found) = router.at(target) else {
        return None;
    };
    match found.value {
        Resource::Commands => None,
        Resource::Desk => Some(Ask::Desk),
        Resource::Branches => Some(Ask::Branches),
        Resource::Field => {
            let branch = branch_of(&found.params)?;
            let article = article_of(&found.params)?;
            Some(Ask::Field(branch, article))
        }
        Resource::Order => Some(Ask::Order(order_of(&found.params)?)),
        Resource::Sheet => Some(Ask::Sheet(branch_of(&found.params)?)),
        Resource::Article => Some(Ask::Article(article_of(&found.params)?)),
        Resource::Key => Some(Ask::Kept(key_of(&found.params)?)),
        Resource::Open => Some(Ask::Open(floor_of(&found.params)?)),
        Resource::Due => Some(Ask::Due(moment_of(&found.params)?)),
    }
}

/// Returns whether commands are posted to this target.
pub fn takes_commands(router: &Router<Resource>, target: &str) -> bool
    requires { router.now ≡ routes }
    ensures { IsTrue result ↔ (resource_of target.now ≡ Some Resource.Commands) }
{
    match router.at(target) {
        Ok(found) => matches!(found.value, Resource::Commands),
        Err(_) => false,
    }
}

// Returns the branch that a target names.
fn branch_of(params: &Params) -> Option<Branch>
    ensures { AllText (taken params.now) → MatchOption result
        ((code : List ℕ) → IsBranch code → named (codes "branch") (taken params.now) ≢ Some code)
        (λ code. (named (codes "branch") (taken params.now) ≡ Some code) × IsBranch code) }
{
    Branch::read(params.get("branch")?.as_bytes()).ok()
}

// Returns the article that a target names.
fn article_of(params: &Params) -> Option<Article>
    ensures { AllText (taken params.now) → MatchOption result
        ((code : List ℕ) → IsArticle code → named (codes "article") (taken params.now) ≢ Some code)
        (λ code. (named (codes "article") (taken params.now) ≡ Some code) × IsArticle code) }
{
    Article::read(params.get("article")?.as_bytes()).ok()
}

// Returns the key that a target names.
fn key_of(params: &Params) -> Option<Key>
    ensures { AllText (taken params.now) → MatchOption result
        ((key : List ℕ) → IsKey key → named (codes "key") (taken params.now) ≢ Some key)
        (λ key. (named (codes "key") (taken params.now) ≡ Some key) × IsKey key) }
{
    Key::read(params.get("key")?.as_bytes()).ok()
}

// Returns the order that a target names.
fn order_of(params: &Params) -> Option<OrderNo>
    ensures { AllText (taken params.now) → MatchOption result
        ((n : ℕ) → IsOrderNo n → named (codes "number") (taken params.now) ≢ Some (decimal n))
        (λ n. (named (codes "number") (taken params.now) ≡ Some (decimal n)) × IsOrderNo n) }
{
    number_of(params.get("number")?)
}

// Returns the number that a target names, above which orders are listed.
fn floor_of(params: &Params) -> Option<u64>
    ensures { AllText (taken params.now) → MatchOption result
        ((n : ℕ) → IsFloor n → named (codes "number") (taken params.now) ≢ Some (decimal n))
        (λ n. (named (codes "number") (taken params.now) ≡ Some (decimal n)) × IsFloor n) }
{
    floor_in(params.get("number")?)
}

// Returns the moment that a target names.
fn moment_of(params: &Params) -> Option<Moment>
    ensures { AllText (taken params.now) → MatchOption result
        ((n : ℕ) → IsMoment n → named (codes "moment") (taken params.now) ≢ Some (decimal n))
        (λ n. (named (codes "moment") (taken params.now) ≡ Some (decimal n)) × IsMoment n) }
{
    moment_in(params.get("moment")?)
}

// Returns the order's number that the text spells in decimal, with no zero in front.
fn number_of(text: &str) -> Option<OrderNo>
    ensures some { IfSome result (λ n. (text.now ≡ decimal n) × IsOrderNo n) }
    ensures none { IfNone result ((n : ℕ) → IsOrderNo n → text.now ≢ decimal n) }
{
    let number = read_number(text.as_bytes())?;
    OrderNo::new(number)
}

// Returns the number that the text spells in decimal, with no zero in front, where it is 0 or an order's.
fn floor_in(text: &str) -> Option<u64>
    ensures some { IfSome result (λ n. (text.now ≡ decimal n) × IsFloor n) }
    ensures none { IfNone result ((n : ℕ) → IsFloor n → text.now ≢ decimal n) }
{
    let number = read_number(text.as_bytes())?;
    if number <= MAX_ORDER_NO {
        Some(number)
    } else {
        None
    }
}

// Returns the moment that the text spells in decimal, with no zero in front.
fn moment_in(text: &str) -> Option<Moment>
    ensures some { IfSome result (λ n. (text.now ≡ decimal n) × IsMoment n) }
    ensures none { IfNone result ((n : ℕ) → IsMoment n → text.now ≢ decimal n) }
{
    let number = read_number(text.as_bytes())?;
    Moment::new(number)
}
