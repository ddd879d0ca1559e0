//! The instances of one module.
ghost use Rattle.std.specs.Prelude.{◌≡◌, Some, None, option_map, not};
ghost use Rattle.std.specs.Option.{option_copied};
ghost use Rattle.beam_codesrv.specs.Homes.{number_of, has_any};

use beam_image::Image;
use std::alloc::AllocError;
use std::marker::Model;

/// An instance: an image, with its number over the node's life.
pub struct Instance {
    pub number: u32,
    pub image: Image,
}

impl Drop for Instance {
    fn drop(self) {
        let Instance {
            number: _number,
            image: _image,
        } = self;
    }
}

impl Model for Instance {
    ghost use Rattle.std.specs.Coded.{codes};
    ghost use Rattle.beam_term.specs.Coding.{term_code};
    ghost use Rattle.beam_machine.specs.Code.{Instance as TheInstance};

    ghost Value = { TheInstance };

    ghost coded = { Prim.hlevel (codes, term_code) };

    ghost view = { λ i. record { number = i.number; listing = i.image } };
}

impl Clone for Instance {
    ghost use Rattle.std.specs.Prelude.{◌≡◌};

    ghost is_clone = { λ a b. b ≡ a };

    /// An equal instance, which shares its image.
    fn clone(&self) -> Result<Instance, AllocError> {
        Ok(Instance {
            number: self.number,
            image: self.image.clone()?,
        })
    }
}

/// The current and the old instance of a module.
pub struct Versions {
    current: Option<Instance>,
    old_instance: Option<Instance>,
}

impl Drop for Versions {
    fn drop(self) {
        let Versions {
            current: _current,
            old_instance: _old_instance,
        } = self;
    }
}

impl Model for Versions {
    ghost use Rattle.std.specs.Prelude.{Option};
    ghost use Rattle.std.specs.Coded.{codes};
    ghost use Rattle.beam_term.specs.Coding.{term_code};
    ghost use Rattle.beam_machine.specs.Code.{Instance as TheInstance};

    ghost Value = { Option TheInstance × Option TheInstance };

    ghost coded = { Prim.hlevel (codes, term_code) };

    ghost view = { λ v. (v.current, v.old_instance) };
}

impl Clone for Versions {
    ghost use Rattle.std.specs.Prelude.{◌≡◌};

    ghost is_clone = { λ a b. b ≡ a };

    /// Equal instances, which share their images.
    fn clone(&self) -> Result<Versions, AllocError> {
        Ok(Versions {
            current: self.current.clone()?,
            old_instance: self.old_instance.clone()?,
        })
    }
}

fn number_of(instance: &Option<Instance>) -> Option<u32>
    ensures { result ≡ number_of instance.now }
{
    match instance {
        Some(instance) => Some(instance.number),
        None => None,
    }
}

impl Versions {
    /// A module that is loaded for the first time.
    pub fn first(instance: Instance) -> Versions
        ensures { result ≡ (Some instance, None) }
    {
        Versions {
            current: Some(instance),
            old_instance: None,
        }
    }

    /// Whether there is neither a current nor an old instance.
    pub fn is_empty(&self) -> bool
        ensures { result ≡ not (has_any self.now) }
    {
        self.current.is_none() && self.old_instance.is_none()
    }

    pub fn current(&self) -> Option<&Instance>
        ensures { option_copied result ≡ self.now.0 }
    {
        self.current.as_ref()
    }

    /// The number of the current instance.
    pub fn current_number(&self) -> Option<u32>
        ensures { result ≡ number_of self.now.0 }
    {
        number_of(&self.current)
    }

    /// The number of the old instance.
    pub fn old_number(&self) -> Option<u32>
        ensures { result ≡ number_of self.now.1 }
    {
        number_of(&self.old_instance)
    }

    /// Makes an instance current, and the current one old. The old instance goes, and its number is the answer.
    pub fn load(&mut self, instance: Instance) -> Option<u32>
        ensures moved { self.new ≡ (Some instance, self.old.0) }
        ensures dropped { result ≡ number_of self.old.1 }
    {
        let dropped = self.delete();
        self.current = Some(instance);
        dropped
    }

    /// Makes the current instance old. The old instance goes, and its number is the answer.
    pub fn delete(&mut self) -> Option<u32>
        ensures moved { self.new ≡ (None, self.old.0) }
        ensures dropped { result ≡ number_of self.old.1 }
    {
        let dropped = number_of(&self.old_instance);
        self.old_instance = self.current.take();
        dropped
    }

    /// Removes the old instance. Its number is the answer.
    pub fn purge(&mut self) -> Option<u32>
        ensures moved { self.new ≡ (self.old.0, None) }
        ensures dropped { result ≡ number_of self.old.1 }
    {
        let dropped = number_of(&self.old_instance);
        self.old_instance = None;
        dropped
    }
}
