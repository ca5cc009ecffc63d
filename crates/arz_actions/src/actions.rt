// Actions (Arazzo 1.0.1, sections 4.6.7 and 4.6.8) that are read once.
ghost use Rattle.std.specs.Prelude.{◌≡◌, All, IfOk, Some, map};
ghost use Rattle.arz_components.specs.Indexes.{finds};
ghost use Rattle.arz_components.specs.declared.components.Part.TheVariants as Part;
ghost use Rattle.arz_description.specs.Parts.{meant};
ghost use Rattle.arz_actions.specs.Ready.{ready_of, readies, IsTryable};
ghost use Rattle.arz_actions.specs.Shared.{AreRead};

use crate::ready::Ready;
use crate::shared::{read, shared};
use arz_components::{Components, Part, reused_name};
use arz_json::{Json, Many};
use std::alloc::{AllocError, Global};
use std::collections::BTreeMap;
use std::rc::Rc;

/// The actions of a description, and what was read of its components so far.
#[derive(Drop)]
pub struct Actions<'c, 'a> {
    alloc: Global,
    components: &'c Components<'a>,
    success: BTreeMap<&'a str, Rc<Ready>>,
    failure: BTreeMap<&'a str, Rc<Ready>>,
    ghost success_read: { AreRead (finds components.now Part.SuccessActions) success },
    ghost failure_read: { AreRead (finds components.now Part.FailureActions) failure },
}

impl<'c, 'a> Actions<'c, 'a> {
    /// Nothing is read yet. It takes no memory.
    pub fn new(alloc: Global, components: &'c Components<'a>) -> Actions<'c, 'a>
        ensures { result.components.now ≡ components.now }
    {
        Actions {
            alloc,
            components,
            success: BTreeMap::new(alloc),
            failure: BTreeMap::new(alloc),
        }
    }

    /// The actions of a list, whose items may refer to components of this part. A component is read when an item first
    /// refers to it, and shared after that.
    pub fn list(&mut self, part: Part, items: &'a [Json]) -> Result<Many<Rc<Ready>>, AllocError>
        requires { All IsTryable (map (meant (finds self.old.components.now) part) items.now) }
        ensures list { IfOk result (λ list. readies list ≡ map ready_of (map (meant (finds self.old.components.now) part) items.now)) }
        ensures components { self.new.components.now ≡ self.old.components.now }
    {
        let mut list = Vec::with_capacity(self.alloc, items.len())?;
        for item in items {
            list.push(self.ready(part, item)?)?;
        }
        Ok(Many::from_std(list))
    }

    // One action: the item itself, or the component to which it refers.
    fn ready(&mut self, part: Part, item: &'a Json) -> Result<Rc<Ready>, AllocError>
        requires { IsTryable (meant (finds self.old.components.now) part item.now) }
        ensures ready { IfOk result (λ rc. rc.value ≡ ready_of (meant (finds self.old.components.now) part item.now)) }
        ensures components { self.new.components.now ≡ self.old.components.now }
    {
        let Some(name) = reused_name(part, item) else {
            return read(self.alloc, item);
        };
        match self.components.find(part, name) {
            Some(component) => self.component(part, name, component),
            None => read(self.alloc, item),
        }
    }

    // The component of a part with this name.
    fn component(
        &mut self,
        part: Part,
        name: &'a str,
        component: &Json,
    ) -> Result<Rc<Ready>, AllocError>
        requires found { finds self.old.components.now part name.now ≡ Some component.now }
        requires tryable { IsTryable component.now }
        ensures ready { IfOk result (λ rc. rc.value ≡ ready_of component.now) }
        ensures components { self.new.components.now ≡ self.old.components.now }
    {
        match part {
            Part::SuccessActions => shared(self.alloc, &mut self.success, name, component),
            Part::FailureActions => shared(self.alloc, &mut self.failure, name, component),
            _ => read(self.alloc, component),
        }
    }
}
