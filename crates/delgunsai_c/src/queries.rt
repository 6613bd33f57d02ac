//! Calls that set the query.
ghost use Rattle.tiff_dir.specs.declared.query.Pick.TheVariants.{Columns, Level};
ghost use Rattle.tiff_dir.specs.declared.query.Query.TheVariants.{Info, Window};
ghost use Rattle.cog_client.specs.Keeps.{OpensKeeping};
ghost use Rattle.delgunsai_c.specs.Begins.{BeginsQuery};
ghost use Rattle.delgunsai_c.specs.Calls.{Calls, Done};
ghost use Rattle.delgunsai_c.specs.Driving.{Drives};
ghost use Rattle.delgunsai_c.specs.Handle.{client_of, held_of};

use crate::failure::Failure;
use crate::handle::Handle;
use crate::held::Held;
use cog_client::Query;
use std::alloc::Global;
use tiff_dir::Pick;

/// Sets the query, instead of the one before, and drops what is under way.
fn open_held(held: &mut Held, query: Query)
    ensures opens { OpensKeeping query held.old.client held.new.client }
    ensures begins { BeginsQuery held.old held.new }
{
    held.client.open(query);
    held.begin_query();
}

/// Sets the query of a handle's client. Returns 0 or `COG_NO_CLIENT`.
fn open(alloc: Global, client: &mut Handle, query: Query) -> i32
    ensures opens { Calls (λ s t. Done (OpensKeeping query s t) result) (client_of client.old) (client_of client.new) result }
    ensures begins { Drives BeginsQuery (held_of client.old) (held_of client.new) result }
{
    let Some(mut held) = client.take(alloc) else {
        return Failure::NoClient.code();
    };
    open_held(&mut held, query);
    client.put(held);
    0
}

/// Asks for a window in pixels of the level `level`: `w` columns from `x` and `h` rows from `y`. Returns 0 or `COG_NO_CLIENT`.
#[unsafe(no_mangle)]
pub extern "C" fn cog_client_open_window(
    alloc: Global,
    client: &mut Handle,
    x: u32,
    y: u32,
    w: u32,
    h: u32,
    level: u32,
) -> i32
    ensures opens { Calls (λ s t. Done (OpensKeeping (Window x y w h (Level level)) s t) result)
        (client_of client.old) (client_of client.new) result }
    ensures begins { Drives BeginsQuery (held_of client.old) (held_of client.new) result }
{
    let pick = Pick::Level(level);
    open(alloc, client, Query::Window { x, y, w, h, pick })
}

/// Asks for a window in pixels of level 0. Its samples are of the smallest level in which it has at least `columns` columns, or of
/// level 0 where there is none. Returns 0 or `COG_NO_CLIENT`.
#[unsafe(no_mangle)]
pub extern "C" fn cog_client_open_columns(
    alloc: Global,
    client: &mut Handle,
    x: u32,
    y: u32,
    w: u32,
    h: u32,
    columns: u32,
) -> i32
    ensures opens { Calls (λ s t. Done (OpensKeeping (Window x y w h (Columns columns)) s t) result)
        (client_of client.old) (client_of client.new) result }
    ensures begins { Drives BeginsQuery (held_of client.old) (held_of client.new) result }
{
    let pick = Pick::Columns(columns);
    open(alloc, client, Query::Window { x, y, w, h, pick })
}

/// Asks for Info: the sides of the levels, and what georeferences the image. Returns 0 or `COG_NO_CLIENT`.
#[unsafe(no_mangle)]
pub extern "C" fn cog_client_open_info(alloc: Global, client: &mut Handle) -> i32
    ensures opens { Calls (λ s t. Done (OpensKeeping Info s t) result) (client_of client.old) (client_of client.new) result }
    ensures begins { Drives BeginsQuery (held_of client.old) (held_of client.new) result }
{
    open(alloc, client, Query::Info)
}
