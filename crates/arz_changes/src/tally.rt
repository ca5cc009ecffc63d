// How many bytes of wire form go and come while a tree changes.
ghost use Rattle.std.specs.Prelude.{◌≡◌, ◌+◌, OnOk};
ghost use Rattle.arz_changes.specs.Weight.{weight, name_weight};

use arz_json::Json;
use arz_wire::{number_length, tree_length};
use std::alloc::AllocError;

/// The bytes that went, and those that came.
#[derive(Clone, Copy, Debug)]
pub struct Tally {
    pub gone: u64,
    pub come: u64,
}

impl Tally {
    /// So many bytes went. More than 2^64 - 1 of them count as want of memory, since none holds them.
    pub fn goes(&mut self, bytes: u64) -> Result<(), AllocError>
        ensures gone { OnOk result (self.new.gone ≡ self.old.gone + bytes) }
        ensures come { self.new.come ≡ self.old.come }
    {
        self.gone = self.gone.checked_add(bytes).ok_or(AllocError)?;
        Ok(())
    }

    /// So many bytes came.
    pub fn comes(&mut self, bytes: u64) -> Result<(), AllocError>
        ensures come { OnOk result (self.new.come ≡ self.old.come + bytes) }
        ensures gone { self.new.gone ≡ self.old.gone }
    {
        self.come = self.come.checked_add(bytes).ok_or(AllocError)?;
        Ok(())
    }

    /// A tree went.
    pub fn tree_goes(&mut self, tree: &Json) -> Result<(), AllocError>
        ensures gone { OnOk result (self.new.gone ≡ self.old.gone + weight tree.now) }
        ensures come { self.new.come ≡ self.old.come }
    {
        let bytes = tree_length(tree).ok_or(AllocError)?;
        self.goes(bytes)
    }

    /// A tree came.
    pub fn tree_comes(&mut self, tree: &Json) -> Result<(), AllocError>
        ensures come { OnOk result (self.new.come ≡ self.old.come + weight tree.now) }
        ensures gone { self.new.gone ≡ self.old.gone }
    {
        let bytes = tree_length(tree).ok_or(AllocError)?;
        self.comes(bytes)
    }

    /// A name came.
    pub fn name_comes(&mut self, name: &str) -> Result<(), AllocError>
        ensures come { OnOk result (self.new.come ≡ self.old.come + name_weight name.now) }
        ensures gone { self.new.gone ≡ self.old.gone }
    {
        let len = name.len() as u64;
        self.comes(number_length(len))?;
        self.comes(len)
    }

    /// A name went.
    pub fn name_goes(&mut self, name: &str) -> Result<(), AllocError>
        ensures gone { OnOk result (self.new.gone ≡ self.old.gone + name_weight name.now) }
        ensures come { self.new.come ≡ self.old.come }
    {
        let len = name.len() as u64;
        self.goes(number_length(len))?;
        self.goes(len)
    }
}
