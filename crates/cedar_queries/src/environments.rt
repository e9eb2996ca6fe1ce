//! The environments of requests, borrowed.

ghost use Rattle.std.specs.Prelude.{◌≡◌, map};
ghost use Rattle.std.specs.Iterator.{YieldsFirstBy, item_count};
ghost use Rattle.cedar_queries.specs.Words.{environment_of, environments_left, owned_environment};

use cedar_schema_elements::{RequestEnv, UnlinkedRequestEnv};
use std::iter::FusedIterator;
use std::slice;

/// The environments of requests that are left.
#[derive(Drop)]
pub struct RequestEnvs<'a> {
    rest: slice::Iter<'a, UnlinkedRequestEnv>,
}

impl<'a> RequestEnvs<'a> {
    /// All of these environments.
    pub fn new(environments: &'a [UnlinkedRequestEnv]) -> Self
        ensures { environments_left result ≡ map owned_environment environments.now }
    {
        RequestEnvs {
            rest: environments.iter(),
        }
    }
}

impl<'a> Iterator for RequestEnvs<'a> {
    type Item = RequestEnv<'a>;

    ghost next_gives = { YieldsFirstBy environment_of environments_left };

    ghost remaining = { item_count environments_left };

    fn next(&mut self) -> Option<RequestEnv<'a>> {
        let environment = self.rest.next()?;
        Some(environment.as_request_env())
    }
}

impl<'a> FusedIterator for RequestEnvs<'a> {}
