//! The routes.

ghost use Rattle.std.specs.Prelude.{◌≡◌, IfErr, IfOk, OnOk, map};
ghost use Rattle.matchit.specs.declared.error.InsertError.TheVariants.{OutOfMemory};
ghost use Rattle.web.specs.Routes.{AllFit, routes, with_routes};

use matchit::{InsertError, Router};
use std::alloc::Global;
use std::marker::Model;

/// The routes, each with what it leads to.
const ROUTES: [(&str, Resource); 10] = [
    ("/v1/articles/{article}", Resource::Article),
    ("/v1/branches", Resource::Branches),
    ("/v1/commands", Resource::Commands),
    ("/v1/desk", Resource::Desk),
    ("/v1/due/{moment}", Resource::Due),
    ("/v1/fields/{branch}/{article}", Resource::Field),
    ("/v1/keys/{key}", Resource::Key),
    ("/v1/open/{number}", Resource::Open),
    ("/v1/orders/{number}", Resource::Order),
    ("/v1/sheets/{branch}", Resource::Sheet),
];

/// What a route leads to.
#[derive(Clone, Copy)]
pub enum Resource {
    Article,
    Branches,
    Commands,
    Desk,
    Due,
    Field,
    Key,
    Open,
    Order,
    Sheet,
}

/// The routes.
#[derive(Drop)]
pub struct Routes {
    router: Router<Resource>,
}

impl Model for Routes {
    ghost use Rattle.std.specs.Prelude.{◌≡◌};
    ghost use Rattle.web.specs.Routes.{routes};

    ghost Value = { Unit {0} };

    ghost view = { λ r. tt };

    ghost invariant = { λ r. r.router ≡ routes };
}

impl Routes {
    /// Makes the routes. This fails only for want of memory.
    pub fn new(alloc: Global) -> Result<Routes, InsertError>
        ensures { IfErr result (λ error. error ≡ OutOfMemory) }
    {
        Ok(Routes {
            router: router(alloc)?,
        })
    }

    /// Returns the router of the routes.
    pub fn router(&self) -> &Router<Resource>
        ensures { result.now ≡ routes }
    {
        &self.router
    }
}

/// Makes the router of the routes. This fails only for want of memory.
fn router(alloc: Global) -> Result<Router<Resource>, InsertError>
    ensures made { IfOk result (λ made. made ≡ routes) }
    ensures memory { IfErr result (λ error. error ≡ OutOfMemory) }
{
    let mut made = Router::new(alloc);
    insert_routes(&mut made, &ROUTES)?;
    Ok(made)
}

/// Puts these routes into the router, one after another. This fails only for want of memory.
fn insert_routes(
    router: &mut Router<Resource>,
    mut routes: &[(&str, Resource)],
) -> Result<(), InsertError>
    requires { AllFit (map (λ r. (r.0.now, r.1)) routes.now) router.old }
    ensures made { OnOk result (router.new ≡ with_routes (map (λ r. (r.0.now, r.1)) routes.entry.now) router.old) }
    ensures memory { IfErr result (λ error. error ≡ OutOfMemory) }
{
    while let [first, rest @ ..] = routes {
        router.insert(first.0, first.1)?;
        routes = rest;
    }
    Ok(())
}
