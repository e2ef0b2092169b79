//! Laws over the definition of the hash, which is a sum modulo 2 in the bits of the key as in those
//! of the input. Each function's contract is one law; its body does nothing.
ghost use Rattle.toeplitz_hash.specs.Laws.{HashesHaveBits, IsLinearInKey, IsLinearInInput, OnlyFirstBitsMatter, OnlyPositionsMatter, ZerosHashToZero, OneKeyBitSelects, OneInputBitSelects, InputsAddUp, InputsAreLaidOut, OnlyHashedFieldsMatter, PacketsUseTheKeyOfTheirPort};
ghost use Rattle.toeplitz_hash.specs.Suite.{SuiteIsMet};
ghost use Rattle.toeplitz_hash.specs.DefaultKey.{DefaultKeysAgree};

/// Bit `j` of a hash is the sum modulo 2 over the bits `i` of the input of `input_i * key_(i+j)`,
/// and it has no other bits.
pub fn hashes_have_bits()
    ensures { HashesHaveBits }
{}

/// The hash under a key that is the sum modulo 2 of two keys is the `xor` of the hashes under
/// these.
pub fn is_linear_in_key()
    ensures { IsLinearInKey }
{}

/// The hash of an input that is the sum modulo 2 of two inputs is the `xor` of their hashes.
pub fn is_linear_in_input()
    ensures { IsLinearInInput }
{}

/// Two keys hash an input of `n` bits alike where they agree on bits 0 to `n + 30`.
pub fn only_first_bits_matter()
    ensures { OnlyFirstBitsMatter }
{}

/// Two keys hash all packets of IPv4 alike where they agree on bits 0 to 126, and those of IPv6
/// where they agree on bits 0 to 318.
pub fn only_positions_matter()
    ensures { OnlyPositionsMatter }
{}

/// Under a key of zeros each hash is 0.
pub fn zeros_hash_to_zero()
    ensures { ZerosHashToZero }
{}

/// Under a key with one 1, at bit `k`, bit `j` of a hash is bit `k - j` of the input.
pub fn one_key_bit_selects()
    ensures { OneKeyBitSelects }
{}

/// The hash of an input with one 1, at bit `k`, is the 32 bits of the key from bit `k` on.
pub fn one_input_bit_selects()
    ensures { OneInputBitSelects }
{}

/// The hash of two inputs in a row is the `xor` of their hashes, the second one's under the key
/// from there on.
pub fn inputs_add_up()
    ensures { InputsAddUp }
{}

/// The source address stands first among the bits of a packet's input, then the destination
/// address, the source port and the destination port, each from its highest bit down.
pub fn inputs_are_laid_out()
    ensures { InputsAreLaidOut }
{}

/// Packets whose addresses and ports agree, each at its width, have one input, and so one hash
/// under each key.
pub fn only_hashed_fields_matter()
    ensures { OnlyHashedFieldsMatter }
{}

/// A packet is hashed with the key of the port that it came in at, and a skipped one has no hash.
pub fn packets_use_the_key_of_their_port()
    ensures { PacketsUseTheKeyOfTheirPort }
{}

/// The hash under the default key is what Microsoft's verification suite says, in all its rows. Its
/// inputs reach every bit of that key but the last one, which no input of 36 bytes does.
pub fn suite_is_met()
    ensures { SuiteIsMet }
{}

/// The default keys of both sizes have the same first 320 bits, so that packets hash alike under
/// them.
pub fn default_keys_agree()
    ensures { DefaultKeysAgree }
{}
