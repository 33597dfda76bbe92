// A service, asked through its trait.
ghost use Rattle.std.specs.Prelude.{◌≡◌, ℕ, IfOk};
ghost use Rattle.feed_routes.specs.Table.{HasRoute};

use feed_routes::{Answer, Ask, RouteErr, Service, route};
use http_wire::{Kind, Request};
use nuget_version::{Bytes, NoMemory, Text};
use std::alloc::Global;
use std::test::Fail;

// Answers each request with nothing, and ends at a stop. It keeps the allocator alone.
#[derive(Drop)]
struct Silent {
    alloc: Global,
}

impl Service for Silent {
    ghost use Rattle.std.specs.Prelude.{⊤};
    ghost use Rattle.feed_routes.specs.declared.ask.Ask.TheVariants as ask;

    ghost State = { ⊤ };

    ghost state = { λ service. tt };

    ghost fit = { λ service. ⊤ };

    ghost acts = { λ before request answer after. ⊤ };

    fn answer(&mut self, _request: &Request, ask: &Ask) -> Result<Answer, NoMemory> {
        let stop = match ask {
            Ask::Stop => true,
            _ => false,
        };
        Ok(Answer {
            status: if stop { 200 } else { 404 },
            kind: Kind::Plain,
            body: Bytes::of(Vec::new(self.alloc)),
            stop,
        })
    }
}

// What the service answers to a request that has a route, and nothing to another one.
fn asked<S: Service>(
    alloc: Global,
    service: &mut S,
    request: &Request,
) -> Result<Option<Answer>, NoMemory>
    requires { S.fit service.old }
    ensures { S.fit service.new }
{
    match route(alloc, request.method.as_str(), request.target.as_str()) {
        Ok(ask) => Ok(Some(service.answer(request, &ask)?)),
        Err(RouteErr::Memory) => Err(NoMemory),
        Err(_) => Ok(None),
    }
}

fn request(alloc: Global, method: &str, target: &str) -> Result<Request, NoMemory> {
    Ok(Request {
        method: Text::copy_of(alloc, method)?,
        target: Text::copy_of(alloc, target)?,
        last: false,
        body: Bytes::of(Vec::new(alloc)),
    })
}

#[test]
fn a_service_is_asked(rt: HostRuntime) -> Result<(), Fail> {
    let alloc = rt.alloc();
    let mut service = Silent { alloc };
    let stop = request(alloc, "POST", "/admin/stop")?;
    let answer = asked(alloc, &mut service, &stop)?;
    assert!(rt; answer.is_some_and(|a| a.stop && a.status == 200));
    let index = request(alloc, "GET", "/v3/index.json")?;
    let answer = asked(alloc, &mut service, &index)?;
    assert!(rt; answer.is_some_and(|a| !a.stop && a.status == 404));
    let missing = request(alloc, "GET", "/v3/flat/Foo/index.json")?;
    assert!(rt; asked(alloc, &mut service, &missing)?.is_none());
    Ok(())
}
