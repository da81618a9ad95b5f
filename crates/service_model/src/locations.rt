//! Which kinds of values can stand in which parts of a request or reply.
ghost use Rattle.std.specs.Prelude.{◌≡◌};
ghost use Rattle.service_model.specs.Numbering.{is_string};
ghost use Rattle.service_model.specs.Locations.{is_scalar, is_list, is_map, is_list_of_scalars, is_scalar_or_list, is_map_of_strings, is_map_of_these, can_stand};

use crate::numbering::{Names, Outline, item_outline};
use crate::{Kind, Location, ShapeId};

/// Whether a member of this shape can stand there. One whose kind can't be read stands nowhere.
#[tactic(auto, unfolding(crate::specs::Locations::can_stand))]
pub fn can_stand(names: &Names, id: ShapeId, location: Location) -> bool
    ensures { result ≡ can_stand names.now.entries id location }
{
    let Some((_, outline)) = names.get_index(id.0 as usize) else {
        return false;
    };
    match location {
        Location::Uri => is_scalar(outline),
        Location::Header => is_scalar_or_list(names, outline),
        Location::Headers => is_map_of_strings(names, outline),
        Location::Querystring => {
            is_scalar_or_list(names, outline) || is_map_of_these(names, outline)
        }
        Location::StatusCode => outline.kind.is_some(),
    }
}

/// Whether values are neither structures, lists nor maps.
pub fn is_scalar(outline: &Outline) -> bool
    ensures { result ≡ is_scalar outline.now.kind }
{
    match outline.kind {
        Some(Kind::Structure | Kind::List | Kind::Map) | None => false,
        Some(_) => true,
    }
}

fn is_list(outline: &Outline) -> bool
    ensures { result ≡ is_list outline.now.kind }
{
    matches!(outline.kind, Some(Kind::List))
}

fn is_map(outline: &Outline) -> bool
    ensures { result ≡ is_map outline.now.kind }
{
    matches!(outline.kind, Some(Kind::Map))
}

fn is_string(outline: &Outline) -> bool
    ensures { result ≡ is_string outline.now.kind }
{
    matches!(outline.kind, Some(Kind::Str))
}

/// Whether a shape is a scalar or a list of scalars.
fn is_scalar_or_list(names: &Names, outline: &Outline) -> bool
    ensures { result ≡ is_scalar_or_list names.now.entries outline.now }
{
    is_scalar(outline) || is_list_of_scalars(names, outline)
}

fn is_list_of_scalars(names: &Names, outline: &Outline) -> bool
    ensures { result ≡ is_list_of_scalars names.now.entries outline.now }
{
    match item_outline(names, outline) {
        Some(item) => is_list(outline) && is_scalar(item),
        None => false,
    }
}

fn is_map_of_strings(names: &Names, outline: &Outline) -> bool
    ensures { result ≡ is_map_of_strings names.now.entries outline.now }
{
    match item_outline(names, outline) {
        Some(item) => is_map(outline) && is_string(item),
        None => false,
    }
}

/// Whether a shape is a map of scalars or of lists of scalars.
fn is_map_of_these(names: &Names, outline: &Outline) -> bool
    ensures { result ≡ is_map_of_these names.now.entries outline.now }
{
    match item_outline(names, outline) {
        Some(item) => is_map(outline) && is_scalar_or_list(names, item),
        None => false,
    }
}
