//! Where the walk begins, and the paths of instances.
ghost use Rattle.std.specs.Prelude.{◌≡◌, IfOk};
ghost use Rattle.unit_meaning.specs.Walk as spec;

use ams_token::Names;
use ams_tree::Name;
use expr_types::text_of;
use flat_design::INSTANCE_LIMIT;
use sqlite_items::Items;
use start_scope::first_objects;
use std::alloc::{AllocError, Global};
use unit_meaning::{Request, Site};

/// The flat design before the first instance.
pub fn first_site(alloc: Global) -> Result<Site, AllocError>
    ensures { IfOk result (λ site. site ≡ spec.first_site) }
{
    Ok(Site {
        objects: first_objects(alloc)?,
        dots: Items::new(alloc),
        thresholds: Items::new(alloc),
        processes: 0,
        used: Items::new(alloc),
    })
}

/// The top of a design, which stands in no instance.
pub fn top_request(alloc: Global, top: &[u8], entity: u32) -> Result<Request, AllocError>
    ensures { IfOk result (λ request. request ≡ spec.top_request top.now entity) }
{
    Ok(Request {
        path: Items::from_slice(alloc, top)?,
        entity,
        architecture: None,
        generics: Items::new(alloc),
        ports: Items::new(alloc),
        outer: INSTANCE_LIMIT as u32,
    })
}

/// The path of an instance: that of the one round it, and its label.
pub fn inner_path(
    alloc: Global,
    names: &Names,
    path: &[u8],
    label: Name,
) -> Result<Items<u8>, AllocError>
    ensures { IfOk result (λ inner. inner ≡ spec.inner_path names.now path.now label) }
{
    let mut inner = Vec::from_slice(alloc, path)?;
    inner.push(b'.')?;
    inner.extend_from_slice(text_of(names, label.number).as_bytes())?;
    Ok(Items::from_vec(inner))
}
