//! An encoder as a value of its own: how it begins, and the complete encoding of what it wrote (X.691 11.1).

ghost use Rattle.std.specs.Prelude.{◌≡◌, true, false, Some, OnOk, OnErr, IfOk, IfErr};
ghost use Rattle.per_core.specs.Canon.{completed};
ghost use Rattle.per_enc.specs.Rules.{emptied, fresh};
ghost use Rattle.per_write.specs.Faults.{RefusesOutput};
ghost use Rattle.per_write.specs.WriterState.{view, HoldsOutput};

use crate::{Encoder, EncoderOptions};
use per_bits::BitList;
use per_write::error::EncodeError;
use per_write::{EnclosingSet, Writer};
use rasn_types::types::Codec;
use std::alloc::Allocator;

impl<A: Allocator + Clone> Encoder<A> {
    /// An encoder that has written nothing. It takes no memory yet; what it writes and puts out is kept in memory of
    /// `alloc`.
    pub fn new(alloc: A, options: EncoderOptions) -> Self
        ensures { result ≡ fresh options }
    {
        Encoder {
            writer: Writer::new(alloc, options.codec),
            set: EnclosingSet::uncounted(),
        }
    }

    /// An encoder that has written nothing, as `new` makes it, over a list of bits. The bits are cleared; the list's
    /// memory may be used for what is written, and its allocator keeps what is put out. It takes no memory yet.
    #[inline(always)]
    pub fn new_with_output(options: EncoderOptions, output: BitList<A>) -> Self
        ensures { result ≡ fresh options }
    {
        Encoder {
            writer: Writer::new_with_output(options.codec, output),
            set: EnclosingSet::uncounted(),
        }
    }

    /// The variant in use.
    pub fn codec(&self) -> Codec
        ensures { result ≡ self.now.writer.codec }
    {
        self.writer.codec()
    }

    /// The complete encoding of what was written so far (X.691 11.1), which is then taken out: the next value is
    /// written at the start again.
    ///
    /// An error says that the encoder had failed before, else `OutOfTurn`, where a SEQUENCE, a SET, a CHOICE, a list or
    /// a bag is open, of which half a value was written, and else that memory ran out. The encoder has failed then.
    #[inline(always)]
    pub fn output(&mut self) -> Result<Vec<u8, A>, EncodeError>
        ensures octets { IfOk result (λ octets. completed (view self.old.writer 0) ≡ Some octets.items) }
        ensures taken { OnOk result (self.new ≡ emptied self.old) }
        ensures begun { OnOk result (self.old.writer.failed ≡ false) }
        ensures outside { OnOk result (self.old.writer.scope.is_open ≡ false) }
        ensures err { IfErr result (λ e. RefusesOutput e self.old.writer) }
        ensures fails { OnErr result (self.new.writer.failed ≡ true) }
        ensures kept { self.new.writer.codec ≡ self.old.writer.codec }
    {
        self.writer.output()
    }

    /// Puts the complete encoding of what was written so far (X.691 11.1) behind what a buffer holds. The next value is
    /// written at the start again, in the memory that this one had: once it has grown to what the messages take, an
    /// encoder asks for no more.
    ///
    /// An error says what that of `output` does, or that the buffer found no memory. The buffer is as it was then, and
    /// the encoder has failed.
    pub fn output_onto(&mut self, buffer: &mut Vec<u8, A>) -> Result<(), EncodeError>
        ensures octets { OnOk result (HoldsOutput buffer.old.items self.old.writer buffer.new.items) }
        ensures same { OnErr result (buffer.new.items ≡ buffer.old.items) }
        ensures taken { OnOk result (self.new ≡ emptied self.old) }
        ensures begun { OnOk result (self.old.writer.failed ≡ false) }
        ensures outside { OnOk result (self.old.writer.scope.is_open ≡ false) }
        ensures err { IfErr result (λ e. RefusesOutput e self.old.writer) }
        ensures fails { OnErr result (self.new.writer.failed ≡ true) }
        ensures kept { self.new.writer.codec ≡ self.old.writer.codec }
    {
        self.writer.output_onto(buffer)
    }

    /// The complete encoding of what was written, as `output` gives it.
    #[inline(always)]
    pub fn output_into_vec(mut self) -> Result<Vec<u8, A>, EncodeError>
        ensures octets { IfOk result (λ octets. completed (view self.writer 0) ≡ Some octets.items) }
        ensures begun { OnOk result (self.writer.failed ≡ false) }
        ensures outside { OnOk result (self.writer.scope.is_open ≡ false) }
        ensures err { IfErr result (λ e. RefusesOutput e self.writer) }
    {
        self.output()
    }
}
