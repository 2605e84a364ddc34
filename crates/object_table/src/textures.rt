//! The textures of a table.
ghost use Rattle.std.specs.Prelude.{◌≡◌, refl, None, All, IfSome, is_some, length, slice_index_or};
ghost use Rattle.std.specs.Option.{option_and_then};
ghost use Rattle.egl_calls.specs.Ranges.{IsNumber};
ghost use Rattle.egl_model.specs.Arguments.{number};
ghost use Rattle.egl_model.specs.Objects.{as_texture, change_texture, texture_in, with_texture};
ghost use Rattle.egl_model.specs.Textures.{storage_at, with_crop, with_value};
ghost use Rattle.ref_store.specs.Kept.{at, AllIn};
ghost use Rattle.object_table.specs.Keeps.{texture_counted};
ghost use Rattle.object_table.specs.Nodes.{object_in};

use crate::changes::{Change, edit_at};
use crate::reads::object_at;
use crate::stored::Stored;
use crate::table::ObjectTable;
use driver_objects::Object;
use egl_calls::Call;
use egl_calls::arguments::signed;
use egl_calls::places::{BOUND_PARAM, BOUND_PNAME};
use ref_store::Store;
use texture_objects::LEVELS;

fn is_texture_at(store: &Store<Stored>, n: u64) -> bool
    requires { AllIn store.now.nodes }
    ensures { result ≡ is_some (as_texture (object_in (at store.now.nodes n))) }
{
    matches!(object_at(store, n), Some(Object::Texture(_)))
}

// An array of levels has eleven. This is a law.
fn count_levels(levels: &[Option<u64>; LEVELS])
    ensures { length levels.now ≡ 11 }
{
    let _ = levels;
}

// A texture has eleven levels. This is a law.
fn levels_at(store: &Store<Stored>, n: u64)
    requires { AllIn store.now.nodes }
    ensures { IfSome (as_texture (object_in (at store.now.nodes n))) (λ x. length x.levels ≡ 11) }
{
    if let Some(Object::Texture(texture)) = object_at(store, n) {
        count_levels(&texture.levels);
    }
}

// The storage of a level.
pub(crate) fn level_in(levels: &[Option<u64>; LEVELS], level: u64) -> Option<u64>
    ensures { result ≡ slice_index_or levels.now level None }
{
    count_levels(levels);
    let level = level as usize;
    if level < LEVELS { levels[level] } else { None }
}

fn level_at(store: &Store<Stored>, n: u64, level: u64) -> Option<u64>
    requires { AllIn store.now.nodes }
    ensures { result ≡ option_and_then (storage_at level) (as_texture (object_in (at store.now.nodes n))) }
{
    match object_at(store, n) {
        Some(Object::Texture(texture)) => level_in(&texture.levels, level),
        _ => None,
    }
}

#[derive(Drop)]
struct SetParameter<'a> {
    call: &'a Call,
}

impl<'a> Change for SetParameter<'a> {
    type Output = ();

    ghost after = { λ e r o. with_texture (with_value (number e.call.now 1) (number e.call.now 2)) o };

    ghost keeps = { λ e r x y m h. texture_counted (with_value (number e.call.now 1) (number e.call.now 2)) (λ v. refl) x y h };

    fn change(self, object: &mut Object) {
        if let Object::Texture(texture) = object {
            texture.texture.set_param(
                signed(self.call, BOUND_PNAME),
                signed(self.call, BOUND_PARAM),
            );
        }
    }
}

// The four numbers of a call's list.
fn crop_of(call: &Call) -> [i64; 4]
    requires { length call.now.list ≡ 4 }
    ensures value { result ≡ call.now.list }
    ensures numbers { All IsNumber result }
{
    let numbers = call.list.as_slice();
    [numbers[0], numbers[1], numbers[2], numbers[3]]
}

#[derive(Drop)]
struct SetCrop<'a> {
    call: &'a Call,
}

impl<'a> Change for SetCrop<'a> {
    type Output = ();

    ghost may = { λ e o. length e.call.now.list ≡ 4 };

    ghost after = { λ e r o. with_texture (with_crop e.call.now.list) o };

    ghost keeps = { λ e r x y m h. texture_counted (with_crop e.call.now.list) (λ v. refl) x y h };

    fn change(self, object: &mut Object) {
        if let Object::Texture(texture) = object {
            let [left, bottom, width, height] = crop_of(self.call);
            texture.texture.set_crop(left, bottom, width, height);
        }
    }
}

impl ObjectTable {
    /// Whether there is a texture of this number.
    pub fn is_texture(&self, n: u64) -> bool
        ensures { result ≡ is_some (texture_in self.now.objects n) }
    {
        is_texture_at(&self.store, n)
    }

    /// A texture has eleven levels. This is a law: there is nothing to run.
    pub fn has_levels(&self, n: u64)
        ensures { IfSome (texture_in self.now.objects n) (λ x. length x.levels ≡ 11) }
    {
        levels_at(&self.store, n);
    }

    /// The storage of a level of a texture, where it has one.
    pub fn level(&self, n: u64, level: u64) -> Option<u64>
        ensures { result ≡ option_and_then (storage_at level) (texture_in self.now.objects n) }
    {
        level_at(&self.store, n, level)
    }

    /// Sets the parameter of a texture that a glTexParameterx gives (OpenGL ES 1.1, section 3.7.4).
    pub fn set_parameter(&mut self, n: u64, call: &Call)
        ensures { self.new ≡ record self.old { objects = change_texture (with_value (number call.now 1) (number call.now 2)) n self.old.objects } }
    {
        edit_at(&mut self.store, n, SetParameter { call }, ());
    }

    /// Sets the crop rectangle of a texture that a glTexParameteriv gives (OES_draw_texture).
    pub fn set_crop(&mut self, n: u64, call: &Call)
        requires { length call.now.list ≡ 4 }
        ensures { self.new ≡ record self.old { objects = change_texture (with_crop call.now.list) n self.old.objects } }
    {
        edit_at(&mut self.store, n, SetCrop { call }, ());
    }
}
