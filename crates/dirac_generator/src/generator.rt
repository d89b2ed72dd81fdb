ghost use Rattle.std.specs.Prelude.{◌≡◌, ℕ, ◌+◌, ◌<◌, ◌≤◌, ◌^◌, [], Some, IfOk, length};
ghost use Rattle.dirac_io.specs.Memory.{count_left, left_of_fits};
ghost use Rattle.dirac_io.specs.Reading.{IfBytes, GivesFront, MeetsEnd};
ghost use Rattle.dirac_types.specs.Settings.{IsAccepted};
ghost use Rattle.dirac_generator.specs.Generated.{generated_from};
ghost use Rattle.dirac_generator.specs.Reading.{held_by};

use crate::picture::{fill_picture, picture_length};
use dirac_common::NoMemory;
use dirac_io::{Got, Source};
use dirac_types::Settings;
use std::alloc::Global;
use std::marker::Model;

/// A source of generated pictures. It makes one after another, and has memory for one alone.
#[derive(Drop)]
pub struct Generator {
    settings: Settings,
    bytes: Vec<u8>,
    from: usize,
    count: u32,
    number: u32,
}

impl Model for Generator {
    ghost use Rattle.std.specs.Prelude.{◌≡◌, ◌+◌, ◌≤◌, drop, vec_len};
    ghost use Rattle.dirac_types.specs.Settings.{IsAccepted};
    ghost use Rattle.dirac_generator.specs.Generated.{picture_count};
    ghost use Rattle.dirac_generator.specs.Reading.{Generating};

    ghost Value = { Generating };

    ghost view = { λ g. record {
      settings = g.settings;
      rest = drop g.from g.bytes.items;
      count = g.count;
      number = g.number;
    } };

    ghost invariant = { λ g. IsAccepted g.settings × (vec_len g.bytes ≡ picture_count g.settings)
        × (g.from ≤ vec_len g.bytes) × (g.count + g.number ≤ 1000) };
}

impl Generator {
    /// The first pictures of that number, from 0 on.
    pub fn try_new(alloc: Global, settings: &Settings, count: u32) -> Result<Generator, NoMemory>
        requires accepted { IsAccepted settings.now }
        requires count { count ≤ 1000 }
        ensures { IfOk result (λ g. held_by g ≡ generated_from settings.now count 0) }
    {
        let length = picture_length(settings);
        let bytes = vec![in alloc; 0; length]?;
        Ok(Generator {
            settings: *settings,
            bytes,
            from: length,
            count,
            number: 0,
        })
    }

    /// Makes the next picture, where nothing is left of the last one.
    fn refill(&mut self)
        ensures held { held_by self.new ≡ held_by self.old }
        ensures filled { length self.new.rest ≡ 0 → self.new.count ≡ 0 }
    {
        if self.from == self.bytes.len() && self.count > 0 {
            fill_picture(&self.settings, self.number, self.bytes.as_mut_slice());
            self.from = 0;
            self.count -= 1;
            self.number += 1;
        }
    }
}

impl Source for Generator {
    ghost use Rattle.std.proofs.Common.{lit<};

    ghost held = { λ g. Some (held_by g) };

    ghost faults = { λ _. 0 };

    ghost left = { λ g. count_left (held_by g) };

    ghost left_fits = { λ g. left_of_fits (held_by g) };

    ghost faults_fit = { λ _. lit< tt };

    fn read(&mut self, buf: &mut [u8]) -> Got
        requires { 0 < length buf.old }
        ensures bytes { IfBytes result (λ n. GivesFront n buf.new (Some (held_by self.old)) (Some (held_by self.new))
            (count_left (held_by self.old)) (count_left (held_by self.new))) }
        ensures end { result ≡ Got.End → MeetsEnd (Some (held_by self.old)) (Some (held_by self.new))
            0 0 (count_left (held_by self.old)) (count_left (held_by self.new)) }
        ensures not_failed { result ≡ Got.Failed → 1 ≤ 0 }
        ensures left { count_left (held_by self.new) ≤ count_left (held_by self.old) }
    {
        self.refill();
        let rest = &self.bytes[self.from..];
        if rest.is_empty() {
            return Got::End;
        }
        let n = buf.len().min(rest.len());
        buf[..n].copy_from_slice(&rest[..n]);
        self.from += n;
        Got::Bytes(n)
    }
}
