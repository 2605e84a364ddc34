//! eglGetConfigs, eglChooseConfig and eglGetConfigAttrib (EGL 1.5, section 3.4).
ghost use Rattle.std.specs.Prelude.{◌≡◌};
ghost use Rattle.egl_model.specs.Configs.{is_list_allowed, attribute_value};
ghost use Rattle.egl_calls.specs.Ranges.{IsNumber};
ghost use Rattle.egl_model.specs.Facts.{is_config_attribute};

use attrib_lists::{Allowed, bad_place};
use config_match::Configs;
use egl_calls::Call;
use egl_calls::arguments::signed;
use egl_calls::places::{ATTRIBUTE, CONFIG};

/// Whether the list of a call has only what such lists may have.
pub fn is_list_allowed(allowed: Allowed, call: &Call) -> bool
    ensures { result ≡ is_list_allowed allowed call.now }
{
    bad_place(call.list.as_slice(), allowed).is_none()
}

/// Whether configs have an attribute: all have the same.
pub(crate) fn is_config_attribute(attribute: i64) -> bool
    ensures { result ≡ is_config_attribute attribute }
{
    Configs::standard().attribute(1, attribute).is_some()
}

/// The value of an attribute of a config.
pub fn attribute_value(call: &Call) -> i64
    ensures value { result ≡ attribute_value call.now }
    ensures number { IsNumber result }
{
    match Configs::standard().attribute(signed(call, CONFIG), signed(call, ATTRIBUTE)) {
        Some(value) => value,
        None => 0,
    }
}
