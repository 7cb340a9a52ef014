//! A table of known jumps over the words of a generator.

ghost use Rattle.std.specs.Prelude.{◌≡◌, ◌+◌, ◌*◌, ◌%◌, ◌^◌};

/// How many jumps there are for each place of a number, one for each digit.
pub(crate) const DIGITS: usize = 32;

/// What some words do to a generator: the state after them is the state before by one number, and the increment by
/// another, in one sum modulo 2^128.
pub(crate) struct Jump {
    of_state: u128,
    of_increment: u128,
}

impl Jump {
    /// The state after the words.
    pub(crate) fn state_after(&self, state: u128, increment: u128) -> u128
        ensures { result ≡ (self.now.of_state * state + self.now.of_increment * increment) % 2 ^ 128 }
    {
        let moved = state.wrapping_mul(self.of_state);
        moved.wrapping_add(increment.wrapping_mul(self.of_increment))
    }
}

/// The jumps for the digits 0 to 31 at each of four places, and for 0 to 15 at a fifth, so that each number of words below
/// a step's slots is a sum of one at each place. For one word the numbers are the multiplier of PCG64 and 1, and those of
/// words and then others come from the numbers of both, as in this Python:
///
///     state, increment = 0x2360ED051FC65DA44385DF649FCCF645, 1
///     for digits in 32, 32, 32, 32, 16:
///         a, c = 1, 0
///         for digit in range(digits):
///             print(hex(a), hex(c))
///             a, c = a * state % 2**128, (c * state + increment) % 2**128
///         state, increment = a, c
pub(crate) static JUMPS: [Jump; 144] = [
    Jump {
        of_state: 0x0000_0000_0000_0000_0000_0000_0000_0001,
        of_increment: 0x0000_0000_0000_0000_0000_0000_0000_0000,
    },
    Jump {
        of_state: 0x2360_ed05_1fc6_5da4_4385_df64_9fcc_f645,
        of_increment: 0x0000_0000_0000_0000_0000_0000_0000_0001,
    },
    Jump {
        of_state: 0x17bc_e35b_df69_743c_529e_d9eb_20e0_ae99,
        of_increment: 0x2360_ed05_1fc6_5da4_4385_df64_9fcc_f646,
    },
    Jump {
        of_state: 0x25f0_4140_4bd8_0e82_eb5a_e837_ed42_153d,
        of_increment: 0x3b1d_d060_ff2f_d1e0_9624_b94f_c0ad_a4df,
    },
    Jump {
        of_state: 0xf4dd_4173_27db_7a9b_d194_dfbe_42d4_5771,
        of_increment: 0x610e_11a1_4b07_e063_817f_a187_adef_ba1c,
    },
    Jump {
        of_state: 0x16c4_06e9_fbe6_c01f_1712_dd28_ec4e_2775,
        of_increment: 0x55eb_5314_72e3_5aff_5314_8145_f0c4_118d,
    },
    Jump {
        of_state: 0x19b2_add4_8def_cda8_81ab_1c97_e737_1089,
        of_increment: 0x6caf_59fe_6eca_1b1e_6a27_5e6e_dd12_3902,
    },
    Jump {
        of_state: 0x9c49_933e_0e7f_5995_3d56_ecca_7fe7_1aed,
        of_increment: 0x8662_07d2_fcb9_e8c6_ebd2_7b06_c449_498b,
    },
    Jump {
        of_state: 0x6347_af77_7a78_98f6_d1a2_d6f3_3505_ffe1,
        of_increment: 0x22ab_9b11_0b39_425c_2929_67d1_4430_6478,
    },
    Jump {
        of_state: 0x18f8_f9f7_7349_32a8_1650_9219_b4cc_2da5,
        of_increment: 0x85f3_4a88_85b1_db52_facc_3ec4_7936_6459,
    },
    Jump {
        of_state: 0xe092_8447_fda0_02f4_3520_872b_c960_db79,
        of_increment: 0x9eec_447f_f8fb_0dfb_111c_d0de_2e02_91fe,
    },
    Jump {
        of_state: 0x7fff_9b79_84d6_798c_3681_4613_656d_6d9d,
        of_increment: 0x7f7e_c8c7_f69b_10ef_463d_5809_f763_6d77,
    },
    Jump {
        of_state: 0x5673_a2cd_bfb5_14c0_c86d_e54d_59ef_6951,
        of_increment: 0xff7e_6441_7b71_8a7b_7cbe_9e1d_5cd0_db14,
    },
    Jump {
        of_state: 0xd008_5999_3389_0bf1_fcce_321a_8847_38d5,
        of_increment: 0x55f2_070f_3b26_9f3c_452c_836a_b6c0_4465,
    },
    Jump {
        of_state: 0x8d76_620e_aaec_2ffd_3b7e_935c_c08a_ff69,
        of_increment: 0x25fa_60a8_6eaf_ab2e_41fa_b585_3f07_7d3a,
    },
    Jump {
        of_state: 0xbb65_d723_fcf3_d618_2b8d_d86f_3591_bd4d,
        of_increment: 0xb370_c2b7_199b_db2b_7d79_48e1_ff92_7ca3,
    },
    Jump {
        of_state: 0xb6a4_239f_3b31_5f84_f6ef_6d3d_288c_03c1,
        of_increment: 0x6ed6_99db_168f_b143_a907_2151_3524_39f0,
    },
    Jump {
        of_state: 0x122f_ccea_fed3_2c57_eea8_12be_5624_7905,
        of_increment: 0x257a_bd7a_51c1_10c8_9ff6_8e8e_5db0_3db1,
    },
    Jump {
        of_state: 0xa257_5aaf_626f_c8d2_96c0_e142_cf1b_6c59,
        of_increment: 0x37aa_8a65_5094_3d20_8e9e_a14c_b3d4_b6b6,
    },
    Jump {
        of_state: 0x5c6a_2185_69cc_205c_59a6_d5ef_ca6d_b9fd,
        of_increment: 0xda01_e514_b304_05f3_255f_828f_82f0_230f,
    },
    Jump {
        of_state: 0x01fc_86b5_1903_eba0_64ac_95ef_58e8_3f31,
        of_increment: 0x366c_069a_1cd0_264f_7f06_587f_4d5d_dd0c,
    },
    Jump {
        of_state: 0xe226_6b71_3b19_5f27_cec4_df67_ed5e_1e35,
        of_increment: 0x3868_8d4f_35d4_11ef_e3b2_ee6e_a646_1c3d,
    },
    Jump {
        of_state: 0x8f37_ee57_6d4f_4d2e_c299_a892_68a1_1249,
        of_increment: 0x1a8e_f8c0_70ed_7117_b277_cdd6_93a4_3a72,
    },
    Jump {
        of_state: 0x4922_5b7c_8045_6050_27d4_463a_e428_13ad,
        of_increment: 0xa9c6_e717_de3c_be46_7511_7668_fc45_4cbb,
    },
    Jump {
        of_state: 0x2eab_8af6_07e4_c633_cb02_9bda_2291_8ba1,
        of_increment: 0xf2e9_4294_5e82_1e96_9ce5_bca3_e06d_6068,
    },
    Jump {
        of_state: 0x9b75_2c72_3820_7889_dde4_5a9b_70b3_5865,
        of_increment: 0x2194_cd8a_6666_e4ca_67e8_587e_02fe_ec09,
    },
    Jump {
        of_state: 0xf8d7_7bdd_4fc3_3988_9802_7f76_e2c3_e139,
        of_increment: 0xbd09_f9fc_9e87_5d54_45cc_b319_73b2_446e,
    },
    Jump {
        of_state: 0x7227_1375_33ad_de3e_ec0e_9731_39a4_7a5d,
        of_increment: 0xb5e1_75d9_ee4a_96dc_ddcf_3290_5676_25a7,
    },
    Jump {
        of_state: 0x9c66_d984_1efe_a4d2_6766_f40d_dc06_5911,
        of_increment: 0x2808_894f_21f8_751b_c9dd_c9c1_901a_a004,
    },
    Jump {
        of_state: 0xfba0_9424_c612_9045_16dd_f92e_efd8_5795,
        of_increment: 0xc46f_62d3_40f7_19ee_3144_bdcf_6c20_f915,
    },
    Jump {
        of_state: 0x7b05_3022_297a_0d47_d3db_c41f_df34_c929,
        of_increment: 0xc00f_f6f8_0709_aa33_4822_b6fe_5bf9_50aa,
    },
    Jump {
        of_state: 0x4fff_222c_cdbf_d619_c6e0_6f18_a633_9e0d,
        of_increment: 0x3b15_271a_3083_b77b_1bfe_7b1e_3b2e_19d3,
    },
    Jump {
        of_state: 0x0000_0000_0000_0000_0000_0000_0000_0001,
        of_increment: 0x0000_0000_0000_0000_0000_0000_0000_0000,
    },
    Jump {
        of_state: 0x2c82_901a_d1cb_0cd1_82b6_31ba_6b26_1781,
        of_increment: 0x8b14_4946_fe43_8d94_e2de_ea36_e161_b7e0,
    },
    Jump {
        of_state: 0xdab0_3f98_8288_676e_e49e_66c4_d274_6f01,
        of_increment: 0xdb87_61d6_953b_44b4_df08_a33a_2664_7fc0,
    },
    Jump {
        of_state: 0xac5c_63cb_48a7_fc22_92c9_377e_67cb_0681,
        of_increment: 0xb519_bb39_b203_7df0_0989_a9c7_7800_57a0,
    },
    Jump {
        of_state: 0x6021_6733_1d86_cf56_84fe_009a_6d09_de01,
        of_increment: 0x8c09_2058_667b_980d_6f07_a26f_432d_3f80,
    },
    Jump {
        of_state: 0x49f8_6ca4_5d10_fa23_ebea_fa98_3410_f581,
        of_increment: 0xe19b_be8f_dadf_f1f6_bfef_4892_b8e3_3760,
    },
    Jump {
        of_state: 0x9fe7_7080_b1f3_d182_ed4c_d53b_1ec0_4d01,
        of_increment: 0x4d73_2f60_b0dd_800a_23f5_b061_ce1a_3f40,
    },
    Jump {
        of_state: 0x831c_3337_21fc_584c_3eab_d702_9ef7_e481,
        of_increment: 0xd8fa_d93c_6086_60a7_60dc_59d9_3bca_5720,
    },
    Jump {
        of_state: 0x61ec_b5c2_4d95_b058_f04c_80a2_3697_bc01,
        of_increment: 0x199c_ae22_43bd_8562_fca7_94c0_7eeb_7f00,
    },
    Jump {
        of_state: 0x1a01_6908_88a5_67fe_baf1_b479_777f_d381,
        of_increment: 0x5e62_3aff_d7ca_a247_5fb6_b5a7_d875_b6e0,
    },
    Jump {
        of_state: 0x76c5_44d8_4967_0730_a40e_620c_0390_2b01,
        of_increment: 0x27c0_9e61_e09e_e401_376d_9be6_4d60_fec0,
    },
    Jump {
        of_state: 0xb09c_9e24_fb6d_caec_cd04_b579_8ca8_c281,
        of_increment: 0x721e_184a_530b_31d1_765f_0897_a6a5_56a0,
    },
    Jump {
        of_state: 0x1a68_9ead_8e95_9698_c310_caf5_d4a9_9a01,
        of_increment: 0xd1ec_f625_37ff_b1b4_4b27_469a_713a_be80,
    },
    Jump {
        of_state: 0xb9a4_a0bc_1167_31bd_a67c_e640_ad72_b181,
        of_increment: 0xc811_d1f3_6afc_9569_4366_a38d_fe19_3660,
    },
    Jump {
        of_state: 0x791d_9cb8_2756_357d_00bd_2e1d_f8e4_0901,
        of_increment: 0x2d59_eddd_e4e1_8efd_8c8b_39d0_6238_be40,
    },
    Jump {
        of_state: 0x5033_d5c6_5978_c056_2210_ebcd_a8dd_a081,
        of_increment: 0x2754_e0e8_7064_4c35_e059_8b7c_7691_5620,
    },
    Jump {
        of_state: 0x4a5c_31e0_654c_28aa_6047_4e83_bf3f_7801,
        of_increment: 0x87d1_e4ce_03f0_9aca_2763_6e67_d81a_fe00,
    },
    Jump {
        of_state: 0x8dae_792f_8b6a_5f1c_9145_b2e0_4de9_8f81,
        of_increment: 0xca89_18b5_0cc4_ece1_37dc_c920_e7cd_b5e0,
    },
    Jump {
        of_state: 0xe16a_e337_7fb7_49ad_9ced_6e67_76bb_e701,
        of_increment: 0x6d76_3a68_f2ab_66af_537d_a0ec_caa1_7dc0,
    },
    Jump {
        of_state: 0x07cf_8336_8edb_bf95_02ff_1ef9_6b96_7e81,
        of_increment: 0x4514_e6c3_0616_ec96_2360_f8c5_698e_55a0,
    },
    Jump {
        of_state: 0x2d42_0b5a_a8a6_7c88_b299_7e4a_6e59_5601,
        of_increment: 0xe1e6_8ea6_bd42_4db8_ed10_0157_718c_3d80,
    },
    Jump {
        of_state: 0xe43a_6174_946d_c8b3_91f1_b95a_d0e4_6d81,
        of_increment: 0xb5d7_758d_5ac8_12b3_9829_1a00_5393_3560,
    },
    Jump {
        of_state: 0x435d_9a37_19ab_f93d_95e3_4bee_f517_c501,
        of_increment: 0xbf05_7374_7557_1416_d852_22cc_449b_3d40,
    },
    Jump {
        of_state: 0x1ced_bbb9_1b4c_7c43_49f5_6007_4cd3_5c81,
        of_increment: 0x1e21_8e7a_f183_2987_6b65_9f74_3d9c_5520,
    },
    Jump {
        of_state: 0xfca4_c510_2ca7_e2ad_2a73_b158_59f7_3401,
        of_increment: 0xdaf7_9c6c_5e5b_59f1_d80a_2b5b_fb8e_7d00,
    },
    Jump {
        of_state: 0x66f9_4101_a2f6_32c1_3338_f4c2_ae63_4b81,
        of_increment: 0xf217_a3c1_cd96_483f_7523_be8f_ff69_b4e0,
    },
    Jump {
        of_state: 0xed89_b8c7_b9cc_87ca_86c8_c3ca_ebf7_a301,
        of_increment: 0x6d11_2564_abc9_6f6c_bece_43c3_8e25_fcc0,
    },
    Jump {
        of_state: 0x1651_15d4_bbb4_460c_1257_0c11_c494_3a81,
        of_increment: 0x76ee_ecc8_3ed4_5ddc_19d0_ff4e_b0bb_54a0,
    },
    Jump {
        of_state: 0xdad0_db84_f5a7_7ea3_945b_02cb_fa19_1201,
        of_increment: 0xf1bd_4a15_af5b_bb53_22ba_472c_3421_bc80,
    },
    Jump {
        of_state: 0xc67d_112a_3bd9_ed4a_6c4b_9c3a_5e66_2981,
        of_increment: 0x635c_70ac_33ea_b04b_8213_0bf7_a951_3460,
    },
    Jump {
        of_state: 0xf124_c627_045c_8a41_1b23_8721_d35b_8101,
        of_increment: 0xad3a_47a5_56ff_6932_fb59_b2eb_6541_bc40,
    },
    Jump {
        of_state: 0xfbcb_ce74_f7a9_2569_5d4a_ac43_4ad9_1881,
        of_increment: 0xe864_884f_8179_0df1_08b3_c0de_80eb_5420,
    },
    Jump {
        of_state: 0x0000_0000_0000_0000_0000_0000_0000_0001,
        of_increment: 0x0000_0000_0000_0000_0000_0000_0000_0000,
    },
    Jump {
        of_state: 0xae4f_079d_54fb_ece1_4783_31d3_c6be_f001,
        of_increment: 0x8141_7387_e08b_b69a_d185_d642_d945_fc00,
    },
    Jump {
        of_state: 0x101b_8cb8_30c7_cb92_7ff1_ed50_ae7d_e001,
        of_increment: 0xe093_f57a_0dda_0f13_437e_6f10_56cb_f800,
    },
    Jump {
        of_state: 0xeef4_1b57_d4f0_41f0_a867_3f66_b73c_d001,
        of_increment: 0x5e57_4987_1ed3_55ee_2afb_2be4_7891_f400,
    },
    Jump {
        of_state: 0xf54a_27fc_056b_00e7_563f_3505_e0fb_c001,
        of_increment: 0x3a0e_c29f_30ee_08f0_ea79_ae3b_3e97_f000,
    },
    Jump {
        of_state: 0x6da6_e46e_4891_3b8b_a516_db1e_2bba_b001,
        of_increment: 0x8cea_4022_ba1e_cb8e_6de3_d790_a8dd_ec00,
    },
    Jump {
        of_state: 0x5bc2_97b5_0261_7f37_26cc_3e9f_9779_a001,
        of_increment: 0xfe80_9d17_b7b9_8f94_268f_c960_b763_e800,
    },
    Jump {
        of_state: 0xd58e_1dbb_53f8_eca2_d37e_6c7a_2438_9001,
        of_increment: 0xf04d_82b3_a2bf_f217_073f_e527_6a29_e400,
    },
    Jump {
        of_state: 0xdf8a_6fc1_a833_d201_f98d_719d_d1f7_8001,
        of_increment: 0xb371_6586_d218_cca0_8022_cc60_c12f_e000,
    },
    Jump {
        of_state: 0x938d_432b_d665_a61d_2d9a_5afa_a0b6_7001,
        of_increment: 0x0673_4692_332c_fa9b_7ad3_6088_bc75_dc00,
    },
    Jump {
        of_state: 0xa44b_e8c2_c418_646d_3a87_3580_9075_6001,
        of_increment: 0x3a98_9f8c_8165_5301_5658_c31b_5bfb_d800,
    },
    Jump {
        of_state: 0x03b6_a300_6ec3_4a36_1177_0e1f_a134_5001,
        of_increment: 0xbe10_ab98_6505_d646_e326_5594_9fc1_d400,
    },
    Jump {
        of_state: 0x2f56_a67e_4668_f4a1_b9cd_f1c7_d2f3_4001,
        of_increment: 0x25ed_03a9_21e2_1089_5f1b_b970_87c7_d000,
    },
    Jump {
        of_state: 0x0d7f_e41e_c20c_dfdb_4130_ed69_25b2_3001,
        of_increment: 0xf4f2_47cf_be66_affb_7184_d02b_140d_cc00,
    },
    Jump {
        of_state: 0xf93d_990c_16f0_4729_ab86_0df3_9971_2001,
        of_increment: 0x06f0_4ca6_cb74_4f92_2719_bb40_4493_c800,
    },
    Jump {
        of_state: 0x3a6d_6d26_fb86_660a_e2f4_6057_2e30_1001,
        of_increment: 0x7fc9_fe0f_3587_75f1_edfe_dc2c_1959_c400,
    },
    Jump {
        of_state: 0x5480_a501_5f10_1a4e_a7e3_f183_e3ef_0001,
        of_increment: 0x25e1_de6c_c7a9_c89b_91c4_d46a_925f_c000,
    },
    Jump {
        of_state: 0xf1d5_9901_fece_e731_80fd_ce69_baad_f001,
        of_increment: 0xed80_bb8d_48a8_7359_3768_8577_afa5_bc00,
    },
    Jump {
        of_state: 0x5c8d_3fce_c1bf_5977_ab2c_03f8_b26c_e001,
        of_increment: 0xf240_e061_5b0b_c3eb_5953_10cf_712b_b800,
    },
    Jump {
        of_state: 0x1129_269c_c3ca_cc88_0999_9f20_cb2b_d001,
        of_increment: 0xf0d0_b4aa_884b_f9f5_c359_d7ed_d6f1_b400,
    },
    Jump {
        of_state: 0xa41d_ae85_f960_9087_15b2_acd2_04ea_c001,
        of_increment: 0x4abc_61be_1fbf_4b2c_8ebe_7c4e_e0f7_b000,
    },
    Jump {
        of_state: 0x92da_d285_5466_7171_cf24_39fc_5fa9_b001,
        of_increment: 0x7b9e_b578_d1bd_1bc1_1e2e_df6e_8f3d_ac00,
    },
    Jump {
        of_state: 0x4b9b_163b_5370_9f38_abdc_538f_db68_a001,
        of_increment: 0x6f5e_1a7b_2f72_6b0f_19c5_22c8_e1c3_a800,
    },
    Jump {
        of_state: 0x5e8c_8a1d_e430_f6da_880a_067c_7827_9001,
        of_increment: 0x2033_16c3_77e3_7489_6b07_a7d9_d889_a400,
    },
    Jump {
        of_state: 0x07a3_0e37_820d_ac7f_961d_5fb2_35e6_8001,
        of_increment: 0x0d62_57b5_5a96_84e7_38e9_101d_738f_a000,
    },
    Jump {
        of_state: 0xb395_291a_79cf_5694_4ec7_6c21_14a5_7001,
        of_increment: 0x3d14_e49c_9864_0390_e3c8_3d0f_b2d5_9c00,
    },
    Jump {
        of_state: 0x6d2d_e52e_3b56_59e4_60fa_38b9_1464_6001,
        of_increment: 0x58cd_9eb3_aae7_b04d_0170_502c_965b_9800,
    },
    Jump {
        of_state: 0xe33e_32fd_a247_b6b5_a1e8_d26a_3523_5001,
        of_increment: 0xd0e3_bfb3_db0f_152d_5918_aaf0_1e21_9400,
    },
    Jump {
        of_state: 0x940f_4bae_1ea1_36e2_fd07_4624_76e2_4001,
        of_increment: 0x9466_8df0_6f41_2cbb_df64_eed6_4a27_9000,
    },
    Jump {
        of_state: 0x4245_7b48_a624_fcf7_640a_a0d7_d9a1_3001,
        of_increment: 0x941e_fefa_d99b_3c67_b264_fd5b_1a6d_8c00,
    },
    Jump {
        of_state: 0xc9a7_96fe_578c_7448_bee8_ef74_5d60_2001,
        of_increment: 0xbd48_7fca_0ebe_e332_1594_f7fa_8ef3_8800,
    },
    Jump {
        of_state: 0x593b_3013_b872_a212_dbd9_3eea_021f_1001,
        of_increment: 0x1f52_935b_6dad_5c9b_6ddd_4030_a7b9_8400,
    },
    Jump {
        of_state: 0x0000_0000_0000_0000_0000_0000_0000_0001,
        of_increment: 0x0000_0000_0000_0000_0000_0000_0000_0000,
    },
    Jump {
        of_state: 0xa498_509e_76e5_d792_5f53_9c28_c7de_0001,
        of_increment: 0x4bc9_6ebf_e12b_f7d0_3d92_7779_64bf_8000,
    },
    Jump {
        of_state: 0x0798_a3d8_b10d_c72e_6012_1cd5_8fbc_0001,
        of_increment: 0x5d57_b94a_faf0_8e76_63a7_2983_c97f_0000,
    },
    Jump {
        of_state: 0xbed1_7d4a_720c_05c8_c8b3_8206_579a_0001,
        of_increment: 0xb454_a635_ce97_230f_f2fc_161f_2e3e_8000,
    },
    Jump {
        of_state: 0x1647_d1e7_8ec0_2e66_5faf_cbbb_1f78_0001,
        of_increment: 0x26d2_394f_2dc2_6b7e_6c4f_3d4b_92fe_0000,
    },
    Jump {
        of_state: 0xd5f7_04a5_2335_401b_eb7e_f9f3_e756_0001,
        of_increment: 0x2ab2_d22b_d466_7467_505e_9f08_f7bd_8000,
    },
    Jump {
        of_state: 0x9630_bb62_c881_9e0e_3299_0cb0_af34_0001,
        of_increment: 0x4f90_97c2_02c0_a134_1fe8_3b57_5c7d_0000,
    },
    Jump {
        of_state: 0xea1a_8c13_caa7_0f71_fb76_03f1_7712_0001,
        of_increment: 0x2d04_3115_174f_ac12_5baa_1236_c13c_8000,
    },
    Jump {
        of_state: 0xa7c9_8228_5e72_bf8c_0c8d_dfb6_3ef0_0001,
        of_increment: 0x092a_caf1_28cb_a5f3_8462_23a7_25fc_0000,
    },
    Jump {
        of_state: 0x957b_7c36_d75d_3db1_2c58_9fff_06ce_0001,
        of_increment: 0x7b4b_6ab6_a01d_f68d_1ace_6fa8_8abb_8000,
    },
    Jump {
        of_state: 0xc36e_61e4_dd6a_7d46_214e_44cb_ceac_0001,
        of_increment: 0x4e7b_8e35_d259_5c58_9fac_f63a_ef7b_0000,
    },
    Jump {
        of_state: 0xd9d5_3210_a309_d5bf_b1e6_ce1c_968a_0001,
        of_increment: 0xe823_189a_9ab1_ec93_93bb_b75e_543a_8000,
    },
    Jump {
        of_state: 0xa26a_e93a_1af6_02a2_a49a_3bf1_5e68_0001,
        of_increment: 0x763f_8c67_f475_133f_77b8_b312_b8fa_0000,
    },
    Jump {
        of_state: 0x1523_402c_2e15_2383_bfe0_8e4a_2646_0001,
        of_increment: 0x2946_9283_9501_9321_cc61_e958_1db9_8000,
    },
    Jump {
        of_state: 0x2f79_42e5_f158_bc07_ca31_c526_ee24_0001,
        of_increment: 0xbd87_ce51_85bf_85c4_1275_5a2e_8279_0000,
    },
    Jump {
        of_state: 0xdddb_bfc3_db9d_b3e3_8a05_e087_b602_0001,
        of_increment: 0x97ed_fedf_be18_5b73_cab1_0595_e738_8000,
    },
    Jump {
        of_state: 0x3eb7_8ee8_fb8c_56db_c5d4_e06c_7de0_0001,
        of_increment: 0xb9ff_6d21_bd6e_db42_75d2_eb8e_4bf8_0000,
    },
    Jump {
        of_state: 0x869f_b1e8_2d78_54c5_4416_c4d5_45be_0001,
        of_increment: 0xd0fd_a73c_2517_2305_9499_0c17_b0b7_8000,
    },
    Jump {
        of_state: 0xcd13_4bad_5140_c184_cb43_8dc2_0d9c_0001,
        of_increment: 0xa404_88e0_524e_a756_a7c1_6732_1577_0000,
    },
    Jump {
        of_state: 0x0961_70a6_8030_150f_21d3_3b32_d57a_0001,
        of_increment: 0x2508_90b7_f834_3393_3009_fcdd_7a36_8000,
    },
    Jump {
        of_state: 0x872a_cf2d_42dc_2b69_0e3d_cd27_9d58_0001,
        of_increment: 0x6894_82e0_b9bf_e9dc_ae30_cd19_def6_0000,
    },
    Jump {
        of_state: 0x1a01_302f_c706_44a7_56fb_43a0_6536_0001,
        of_increment: 0xc826_5877_c3bb_4318_a2f3_d7e7_43b5_8000,
    },
    Jump {
        of_state: 0x57a4_d01a_157b_04ee_c283_9e9d_2d14_0001,
        of_increment: 0x730b_7c35_66b9_0ef0_8f11_1d45_a875_0000,
    },
    Jump {
        of_state: 0x205f_8fff_47f2_7474_174e_de1d_f4f2_0001,
        of_increment: 0xb19c_5418_b10d_73d1_f346_9d35_0d34_8000,
    },
    Jump {
        of_state: 0xbcfd_ff02_beef_ff7c_1bd5_0222_bcd0_0001,
        of_increment: 0x1eb7_1823_08c5_eeee_5052_57b5_71f4_0000,
    },
    Jump {
        of_state: 0xd9e6_3c01_57a2_765b_968e_0aab_84ae_0001,
        of_increment: 0x1b59_f623_c5a1_543b_26f2_4cc6_d6b3_8000,
    },
    Jump {
        of_state: 0xa6cc_af7a_a1c4_0d77_4df1_f7b8_4c8c_0001,
        of_increment: 0xc03c_8293_cb07_ce71_f7e4_7c69_3b73_0000,
    },
    Jump {
        of_state: 0x6286_9dba_157a_5d44_0878_c949_146a_0001,
        of_increment: 0x9148_7681_2202_df10_43e6_e69c_a032_8000,
    },
    Jump {
        of_state: 0x9a7a_9140_4936_6246_8c9a_7f5d_dc48_0001,
        of_increment: 0x36d1_ba8a_9335_5e57_8bb7_8b61_04f2_0000,
    },
    Jump {
        of_state: 0x652e_9d6c_2794_7d13_a0cf_19f6_a426_0001,
        of_increment: 0x806d_beeb_40d3_7b4d_5014_6ab6_69b1_8000,
    },
    Jump {
        of_state: 0xdf74_7964_253c_7250_0b8e_9913_6c04_0001,
        of_increment: 0xf54a_2096_409a_bbbb_11bb_849c_ce71_0000,
    },
    Jump {
        of_state: 0x33b3_733f_76c1_6ab0_9350_fcb4_33e2_0001,
        of_increment: 0x35e2_9b62_35c9_fc2e_516a_d914_3330_8000,
    },
    Jump {
        of_state: 0x0000_0000_0000_0000_0000_0000_0000_0001,
        of_increment: 0x0000_0000_0000_0000_0000_0000_0000_0000,
    },
    Jump {
        of_state: 0x72d0_3b6f_4681_f2f9_fe8e_44d8_fbc0_0001,
        of_increment: 0x72f6_4944_eb19_6ff8_8fe0_681c_97f0_0000,
    },
    Jump {
        of_state: 0xea85_f81e_4f50_2c9b_c8ae_99b1_f780_0001,
        of_increment: 0xd2a8_477e_4dbb_a5ef_30ab_1439_2fe0_0000,
    },
    Jump {
        of_state: 0xded3_4f14_0c59_1021_5e60_fe8a_f340_0001,
        of_increment: 0xcb7b_3ba6_f8c2_6242_e260_0455_c7d0_0000,
    },
    Jump {
        of_state: 0x629c_320d_b08b_00c6_bfa5_7363_ef00_0001,
        of_increment: 0x3fee_0d4f_2949_6552_a4ff_3872_5fc0_0000,
    },
    Jump {
        of_state: 0x3662_2b7e_afd4_61c7_ec7b_f83c_eac0_0001,
        of_increment: 0x0fcd_3a9c_88ac_6f7d_7888_b08e_f7b0_0000,
    },
    Jump {
        of_state: 0xdab0_1e90_bf23_9660_e4e4_8d15_e680_0001,
        of_increment: 0xdf66_c84a_2c87_4122_5cfc_6cab_8fa0_0000,
    },
    Jump {
        of_state: 0xa286_0723_d467_01cd_a8df_31ee_e240_0001,
        of_increment: 0xdebe_31a8_96b5_9aa0_525a_6cc8_2790_0000,
    },
    Jump {
        of_state: 0xc5c4_b9ce_268d_074a_386b_e6c7_de00_0001,
        of_increment: 0x90c0_589d_b553_3c56_58a2_b0e4_bf80_0000,
    },
    Jump {
        of_state: 0x7399_a3dc_2d84_0a12_938a_aba0_d9c0_0001,
        of_increment: 0x9277_75a4_e2bb_e6a3_6fd5_3901_5770_0000,
    },
    Jump {
        of_state: 0xe4ea_8b50_a23a_6d62_ba3b_8079_d580_0001,
        of_increment: 0x623f_07ce_e58b_59e6_97f2_051d_ef60_0000,
    },
    Jump {
        of_state: 0x6ec1_4ee4_7e9e_9476_ac7e_6552_d140_0001,
        of_increment: 0x26f7_c4c1_f09d_567e_d0f9_153a_8750_0000,
    },
    Jump {
        of_state: 0x94b7_a606_fd9e_e28a_6a53_5a2b_cd00_0001,
        of_increment: 0x773b_88b9_a30d_9ccb_1aea_6957_1f40_0000,
    },
    Jump {
        of_state: 0x1b62_e0dd_9b29_bad9_f3ba_5f04_c8c0_0001,
        of_increment: 0x2091_4687_0837_ed2a_75c6_0173_b730_0000,
    },
    Jump {
        of_state: 0x1abf_a844_142d_80a1_48b3_73dd_c480_0001,
        of_increment: 0xeea0_f790_97b8_07fb_e18b_dd90_4f20_0000,
    },
    Jump {
        of_state: 0x109d_bdcc_6698_971c_693e_98b6_c040_0001,
        of_increment: 0x7267_8bd2_3569_ad9e_5e3b_fdac_e710_0000,
    },
];
